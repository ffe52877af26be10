//! What a line asks for, or why it asks for nothing.

ghost use Rattle.std.specs.Prelude.{◌≡◌};
ghost use Rattle.requests.specs.declared.request.LineError.TheVariants.{NoMemory};

use drawings::Refusal;
use key_names::Keys;
use mouse_events::Mouse;
use std::alloc::AllocError;
use text_model::Coord;
use thiserror::Error;
use window_view::Size;

/// What a line asks for.
#[derive(Drop, Debug)]
pub enum Request {
    /// Nothing: the line has no byte, or spaces, tabs and carriage returns alone.
    Nothing,
    /// These keys are pressed.
    Keys(Keys),
    /// The windows of the client have so many rows and columns from now on.
    Resize(Size),
    /// The client's window goes so many lines on, or back where that is below 0. Some tell the place where the mouse was.
    Scroll(i32, Option<Coord>),
    /// A mouse was moved over the client's window, or a button was pressed or released there.
    Mouse(Mouse),
    /// An item of a menu was chosen.
    MenuSelect,
}

/// Why a line gives no request.
#[derive(Clone, Copy, PartialEq, Eq, Debug, Error)]
pub enum LineError {
    /// The line is refused; it changes nothing.
    #[error("refused: {0}")]
    Refused(Refusal),
    /// Memory ran out.
    #[error("out of memory")]
    NoMemory,
}

impl From<AllocError> for LineError {
    ghost from_gives = { λ _ e. e ≡ NoMemory };

    fn from(_error: AllocError) -> LineError {
        LineError::NoMemory
    }
}
