//! A link, served at the desk of a session.

ghost use Rattle.std.specs.Prelude.{◌≡◌, IfOk, option_map};
ghost use Rattle.session_turns.specs.Growth.{Begins};
ghost use Rattle.client_links.specs.Wires.{TellsNoMore};
ghost use Rattle.session_desk.specs.Tokens.{IsOf, IsSamePass};
ghost use Rattle.session_events.specs.Legal.{IsLegal};
ghost use Rattle.session_lines.specs.Serving.{service};
ghost use Rattle.json_ui.specs.Requests.{read_request};
ghost use Rattle.link_lines.specs.Drawings.{DrawsOnlyMissed};
ghost use Rattle.link_lines.specs.Endings.{WasServedOver, EndsFor, HasLeftAt, NeverCame};
ghost use Rattle.kak_engine.specs.Steps.{given_by, crowded_by, parting_by};
ghost use Rattle.session_server.specs.Rows.{opening_keys, seat_by};

use client_links::Link;
use engine_desk::{DeskSeat, SharedEngine};
use json_ui::JsonReader;
use kak_engine::Outside;
use key_names::Key;
use line_gates::Gate;
use link_lines::{Ended, serve_over};
use program_words::edit_keys;
use regex_ports::RegexPattern;
use session_desk::{Desk, Pass};
use std::alloc::{AllocError, Global};
use std::sync::Wait;

// The keys that are struck before the first drawing.
fn opening_keys(alloc: Global, file: Option<&str>) -> Result<Vec<Key>, AllocError>
    ensures { IfOk result (λ keys. keys.items ≡ opening_keys (option_map (λ name. name.now) file.entry)) }
{
    match file {
        Some(name) => edit_keys(alloc, name),
        None => Ok(Vec::new(alloc)),
    }
}

/// Serves a link at a desk, under a pass that has no entry yet: its client comes, strikes the keys that open a file where one
/// is named, and is drawn; its lines are played as they come, each when the gate lets it run, and where none comes it is
/// drawn what it has missed. It leaves before every end at which it came, unless the session is broken. Where memory is
/// wanting for the keys, nothing is played. The pass is given back with the history that it has seen, by which all of this
/// holds, and in front of which stands what it had seen before.
pub fn serve_link<R: Wait, L: Link, G: Gate, O: Outside<P = RegexPattern> + Drop>(
    rt: &R,
    alloc: Global,
    desk: &Desk<SharedEngine<O>>,
    pass: Pass<SharedEngine<O>>,
    file: Option<&str>,
    link: &mut L,
    gate: &mut G,
) -> (Ended, Pass<SharedEngine<O>>)
    requires own { IsOf pass.place desk.now }
    requires new { NeverCame given_by pass.number pass.seen }
    ensures same { IsSamePass pass result.1 }
    ensures sees { Begins result.1.seen pass.seen }
    ensures legal { IsLegal desk.now.frame.limit pass.seen → IsLegal desk.now.frame.limit result.1.seen }
    ensures served { WasServedOver (service given_by read_request (opening_keys (option_map (λ name. name.now) file.entry))) pass.number result.1.seen (L.wire link.old) (L.wire link.new) result.0 }
    ensures left { HasLeftAt given_by parting_by result.0 pass.number result.1.seen }
    ensures drawn { DrawsOnlyMissed pass.number result.1.seen }
    ensures cause { EndsFor given_by crowded_by parting_by result.0 (seat_by desk.now.frame.limit pass.number result.1.seen result.1.mark) (L.wire link.old) (L.wire link.new) }
    ensures no_more { TellsNoMore (L.wire link.old) (L.wire link.new) }
{
    let Ok(keys) = opening_keys(alloc, file) else {
        return (Ended::NoMemory, pass);
    };
    let who = pass.number();
    let mut seat = DeskSeat::new(rt, desk, pass);
    let ended = serve_over::<JsonReader, _, _, _, _>(
        rt,
        alloc,
        who,
        &mut seat,
        keys.as_slice(),
        link,
        gate,
    );
    (ended, seat.into_pass())
}
