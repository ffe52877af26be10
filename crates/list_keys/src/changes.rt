//! The changes of a list of selections as a whole.

ghost use Rattle.std.specs.Prelude.{◌≡◌, ◌<◌, ◌≤◌, ◌↔◌, length, IfOk, IfSome, IsOk, IsErrOf, option_map};
ghost use Rattle.text_model.specs.declared.TheConstants.{MAX_SELECTIONS};
ghost use Rattle.selection_set.specs.Held.{selected, IsHeld};
ghost use Rattle.list_keys.specs.Changes.{changed_list, made_count};

use crate::copying::copied;
use crate::cuts::Cut;
use crate::dropping::cut_each;
use crate::main_selection::{main_alone, whole_text, without_main};
use crate::parts::Split;
use crate::splitting::split_each;
use directions::Direction;
use line_buffer::Lines;
use selection_set::{Sels, SelsError};
use std::alloc::Global;

/// What becomes of a list as a whole.
#[derive(Clone, Copy, PartialEq, Eq, Debug)]
pub enum ListChange {
    /// One selection of the whole text.
    WholeText,
    /// The main one alone.
    MainAlone,
    /// All but the main one.
    WithoutMain,
    /// Each cut at its ends, without those of which nothing is left.
    Cut(Cut),
    /// Each cut up into parts.
    Split(Split),
    /// Each, and behind them a copy of each on other lines.
    Copied(Direction),
}

/// What becomes of a list by a change: the settled list, or None exactly where no selection would be left. `TooMany` comes
/// exactly where more than `MAX_SELECTIONS` would be made, before they are settled. At most four that were there and at
/// most four that are made take no memory.
pub fn changed(
    alloc: Global,
    lines: &Lines,
    sels: &Sels,
    change: ListChange,
) -> Result<Option<Sels>, SelsError>
    requires { IsHeld lines.now sels.now }
    ensures held { IfOk result (λ found. IfSome found (λ s. IsHeld lines.now s)) }
    ensures changes { IfOk result (λ found. option_map (selected lines.now) found ≡ changed_list change lines.now (selected lines.now sels.now)) }
    ensures too_many { IsErrOf result SelsError.TooMany ↔ (MAX_SELECTIONS < made_count change lines.now (selected lines.now sels.now)) }
    ensures few { length sels.now.list ≤ 4 → made_count change lines.now (selected lines.now sels.now) ≤ 4 → IsOk result }
{
    match change {
        ListChange::WholeText => Ok(Some(whole_text(alloc, lines))),
        ListChange::MainAlone => Ok(Some(main_alone(alloc, sels))),
        ListChange::WithoutMain => without_main(alloc, lines, sels),
        ListChange::Cut(how) => cut_each(alloc, lines, sels, how),
        ListChange::Split(how) => split_each(alloc, lines, sels, how),
        ListChange::Copied(direction) => copied(alloc, lines, sels, direction),
    }
}
