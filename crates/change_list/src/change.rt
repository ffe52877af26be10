//! Single changes of a text, with their characters.

ghost use Rattle.std.specs.Prelude.{◌≡◌};
ghost use Rattle.change_list.specs.Logs.{back, TakesBack};

use kak_text::{Chars, Coord, Shift};

/// One single change of a text: it can be made, and taken back.
#[derive(Drop, Debug)]
pub struct Change {
    /// Where characters were put in or taken out.
    pub shift: Shift,
    /// What was put in or taken out.
    pub chars: Chars,
}

/// The shift that takes a change back; `last` is the last place of the text before the change.
pub fn inverse(change: &Change, last: Coord) -> Shift
    ensures value { result ≡ back change.now.shift last }
    ensures takes_back { TakesBack change.now.shift last result }
{
    Shift {
        insert: !change.shift.insert,
        begin: change.shift.begin,
        end: change.shift.end,
        last,
    }
}
