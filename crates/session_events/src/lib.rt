//! The words of a session: what happens in it and stands in its history, what a step gives its client or why it is
//! refused, and the place from which one client takes its steps, and where others play too, is told what came since it was
//! drawn. What an entry means is handed in by whoever plays entries, so that whoever reads this can forget the editor.
#![tactic(auto)]

pub mod event;
pub mod examples;
pub mod fault;
pub mod kind;
pub mod laws;
pub mod limits;
pub mod live;
pub mod news;
pub mod seat;

pub use event::{Answered, Answers, Entry, Event, Output};
pub use fault::StepFault;
pub use kind::{Kind, is_drawing, is_join, is_leave, kind_of};
pub use limits::MAX_ENTRIES;
pub use live::{LiveSeat, Missed};
pub use news::has_news;
pub use seat::{Seat, Seats};
