//! What happens in a session, and what it gives.

ghost use Rattle.std.specs.Prelude.{◌≡◌};
ghost use Rattle.session_events.specs.Meaning.{no_output};

use byte_texts::Octets;
use drawings::Drawing;
use key_names::Key;
use mouse_events::Mouse;
use sequences::Seq;
use window_view::Size;

/// One event of a client.
#[derive(Clone, Copy, Debug)]
pub enum Event {
    /// The client comes.
    Join,
    /// The client strikes a key.
    Key(Key),
    /// The windows of the client have so many rows and columns from now on.
    Resize(Size),
    /// The client's window goes so many lines on, or back where that is below 0.
    Scroll(i32),
    /// A mouse was moved over the client's window, or a button was pressed or released there.
    Mouse(Mouse),
    /// The client is drawn; the flag says whether it asked to be.
    Refresh(bool),
    /// The client goes.
    Leave,
}

/// What the outside answered in a step.
#[derive(Drop, Debug)]
pub enum Answered {
    /// A file was read.
    Read(Octets),
    /// There is no such file.
    NotThere,
    /// The file has more bytes than were asked for.
    TooBig,
    /// The read failed.
    ReadFailed,
    /// A file was written.
    Wrote,
    /// The write failed.
    WriteFailed,
    /// A pattern was built.
    Built,
    /// A pattern was refused.
    Refused,
}

/// The outside's answers in one step, in order.
pub type Answers = Seq<Answered>;

/// One entry of a history: whose event it is, and what the outside answered in its step.
#[derive(Drop, Debug)]
pub struct Entry {
    pub who: u32,
    pub event: Event,
    pub answers: Answers,
}

/// What a step gives its client.
#[derive(Drop, Debug)]
pub struct Output {
    /// The drawing, after a refresh.
    pub drawing: Option<Drawing>,
    /// Whether the client was granted to leave in this step.
    pub leaving: bool,
}

impl Output {
    /// Nothing to draw, and no leave.
    pub fn nothing() -> Output
        ensures { result ≡ no_output }
    {
        Output {
            drawing: None,
            leaving: false,
        }
    }
}
