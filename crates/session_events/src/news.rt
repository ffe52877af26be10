//! What stands behind a client's last drawing.

ghost use Rattle.std.specs.Prelude.{◌≡◌};
ghost use Rattle.session_events.specs.Missing.{has_news};

use crate::event::Entry;
use crate::kind::is_drawing;

/// Whether something to be drawn stands behind a client's last drawing. It looks back no further than to that drawing, or to the
/// last entry that is something to be drawn.
pub fn has_news(history: &[Entry], who: u32) -> bool
    ensures { result ≡ has_news who history.now }
{
    let mut rest = history;
    while let Some((entry, before)) = rest.split_last() {
        if !is_drawing(&entry.event) {
            return true;
        }
        if entry.who == who {
            return false;
        }
        rest = before;
    }
    false
}
