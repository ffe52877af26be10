//! The numbers that have joined, of which a look-up finds each.
#![tactic(auto)]

ghost use Rattle.std.specs.Prelude.{◌≡◌, true, OnOk, OnErr};
ghost use Rattle.std.specs.Ordering.{nat_cmp};
ghost use Rattle.std.specs.BTreeSet.{contains};
ghost use Rattle.session_events.specs.Entries.{is_join};
ghost use Rattle.kak_engine.specs.Joined.{NotesComing};

use session_events::{Event, is_join};
use std::alloc::AllocError;
use std::collections::BTreeSet;

/// Whether a number has joined.
pub(crate) fn is_known(joined: &BTreeSet<u32>, who: u32) -> bool
    ensures { result ≡ contains nat_cmp joined.now who }
{
    joined.contains(&who)
}

/// Notes the number of a client that comes. An `Err` is of a coming.
pub(crate) fn note_coming(
    joined: &mut BTreeSet<u32>,
    who: u32,
    event: &Event,
) -> Result<(), AllocError>
    ensures notes { OnOk result (NotesComing who event.now joined.old joined.new) }
    ensures comes { OnErr result (is_join event.now ≡ true) }
{
    if !is_join(event) {
        return Ok(());
    }
    joined.insert(who)?;
    Ok(())
}
