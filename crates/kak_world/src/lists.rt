//! The lists that holders begin with on a buffer.

ghost use Rattle.std.specs.Prelude.{◌≡◌, OnOk, OnErr};
ghost use Rattle.text_model.specs.Texts.{IsStored};
ghost use Rattle.selection_set.specs.Held.{selected, IsHeld};
ghost use Rattle.kak_world.specs.Flat.{only_at, listed_for};
ghost use Rattle.kak_world.specs.Seen.{IsShelfOf, IsListedBy};
ghost use Rattle.kak_world.specs.Dropping.{listed_for_viewer, listed_for_viewers};

use crate::clients::Client;
use kak_text::Coord;
use line_buffer::Lines;
use list_shelf::{Holder, Shelf};
use selection_set::{Sel, Sels};
use std::alloc::{AllocError, Global};
use window_view::Corner;

// The list of one selection, of a text's first character. Takes no memory.
fn first_character(alloc: Global, lines: &Lines) -> Sels
    ensures stored { IsStored lines.now }
    ensures held { IsHeld lines.now result }
    ensures first { selected lines.now result ≡ only_at 0 }
{
    // its contract says that a text has a first character
    let _stored = lines.len();
    Sels::one(alloc, Sel::only(Coord { line: 0, column: 0 }))
}

/// Gives a holder that has no list on a text the one to begin with. An `Err` leaves the lists.
pub(crate) fn add_first(
    shelf: &mut Shelf,
    alloc: Global,
    lines: &Lines,
    holder: Holder,
) -> Result<(), AllocError>
    requires { IsShelfOf lines.now shelf.old }
    ensures ok { OnOk result (IsListedBy (listed_for holder) lines.now shelf.old shelf.new) }
    ensures err { OnErr result (shelf.new ≡ shelf.old) }
{
    shelf.add_list(holder, first_character(alloc, lines), Corner::first())
}

// Adds the list that a client begins with, where it sees the buffer of a number and has none here.
fn add_for_viewer(
    shelf: &mut Shelf,
    alloc: Global,
    lines: &Lines,
    n: u32,
    client: &Client,
) -> Result<(), AllocError>
    requires { IsShelfOf lines.now shelf.old }
    ensures ok { OnOk result (IsListedBy (listed_for_viewer n client.now) lines.now shelf.old shelf.new) }
    ensures err { OnErr result (shelf.new ≡ shelf.old) }
{
    if client.shown != n {
        return Ok(());
    }
    add_first(shelf, alloc, lines, Holder::Of(client.who))
}

/// Adds the list to begin with for each client that sees the buffer of a number and has none here. An `Err` leaves the
/// lists.
pub(crate) fn add_for_viewers(
    shelf: &mut Shelf,
    alloc: Global,
    lines: &Lines,
    n: u32,
    clients: &[Client],
) -> Result<(), AllocError>
    requires { IsShelfOf lines.now shelf.old }
    ensures ok { OnOk result (IsListedBy (listed_for_viewers n clients.now) lines.now shelf.old shelf.new) }
    ensures err { OnErr result (shelf.new ≡ shelf.old) }
{
    let count = shelf.count();
    for client in clients {
        match add_for_viewer(shelf, alloc, lines, n, client) {
            Ok(()) => {}
            Err(error) => {
                shelf.keep_first(count);
                return Err(error);
            }
        }
    }
    Ok(())
}
