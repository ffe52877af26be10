//! What a client is told, sent over its link.

ghost use Rattle.std.specs.Prelude.{◌≡◌, []};
ghost use Rattle.client_links.specs.Wires.{IsSameHearing, TellsNoMore};
ghost use Rattle.session_lines.specs.Sending.{Sends, Counts, Tells};
ghost use Rattle.session_lines.specs.Serving.{telling_bytes};

use client_links::Link;
use kak_ports::Put;
use session_lines::{Stop, Telling, write_telling};
use std::sync::Wait;

// Sends bytes.
fn send<R: Wait, L: Link>(rt: &R, link: &mut L, bytes: &[u8]) -> Result<(), Stop>
    ensures sends { Sends result (L.wire link.old).outlet (L.wire link.new).outlet bytes.now }
    ensures counted { Counts result (L.wire link.old).outlet (L.wire link.new).outlet }
    ensures heard { IsSameHearing (L.wire link.old) (L.wire link.new) }
    ensures no_more { TellsNoMore (L.wire link.old) (L.wire link.new) }
{
    match link.send(rt, bytes) {
        Put::Done => Ok(()),
        Put::Failed => Err(Stop::WriteFault),
    }
}

/// Sends what a client is told, written into `out`. Where that is nothing, nothing is sent. An `Err` is want of memory,
/// where nothing was sent, or a sending that failed, where some of it may have been.
pub fn tell<R: Wait, L: Link>(
    rt: &R,
    link: &mut L,
    out: &mut Vec<u8>,
    telling: &Telling,
) -> Result<(), Stop>
    ensures told { Tells result (L.wire link.old).outlet (L.wire link.new).outlet (telling_bytes telling.now) }
    ensures heard { IsSameHearing (L.wire link.old) (L.wire link.new) }
    ensures no_more { TellsNoMore (L.wire link.old) (L.wire link.new) }
{
    out.clear();
    write_telling(telling, out)?;
    if out.is_empty() {
        return Ok(());
    }
    send(rt, link, out.as_slice())
}
