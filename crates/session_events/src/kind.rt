//! What an event is to its client's life: all that histories, seats and connections know of an event.

ghost use Rattle.std.specs.Prelude.{◌≡◌};
ghost use Rattle.session_events.specs.Entries.{kind_of, is_join, is_leave, is_drawing};

use crate::event::Event;

/// What an event is to its client's life.
#[derive(Clone, Copy, PartialEq, Eq, Debug)]
pub enum Kind {
    /// The client comes.
    Coming,
    /// The client does something.
    Doing,
    /// The client is drawn.
    Drawing,
    /// The client goes.
    Going,
}

/// What an event is to its client's life.
pub fn kind_of(event: &Event) -> Kind
    ensures { result ≡ kind_of event.now }
{
    match event {
        Event::Join => Kind::Coming,
        Event::Key(_) => Kind::Doing,
        Event::Resize(_) => Kind::Doing,
        Event::Scroll(_) => Kind::Doing,
        Event::Mouse(_) => Kind::Doing,
        Event::Refresh(_) => Kind::Drawing,
        Event::Leave => Kind::Going,
    }
}

/// Whether an event is a client's coming.
pub fn is_join(event: &Event) -> bool
    ensures { result ≡ is_join event.now }
{
    matches!(kind_of(event), Kind::Coming)
}

/// Whether an event is a client's going.
pub fn is_leave(event: &Event) -> bool
    ensures { result ≡ is_leave event.now }
{
    matches!(kind_of(event), Kind::Going)
}

/// Whether an event is a drawing, asked for or not.
pub fn is_drawing(event: &Event) -> bool
    ensures { result ≡ is_drawing event.now }
{
    matches!(kind_of(event), Kind::Drawing)
}
