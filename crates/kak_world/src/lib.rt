//! The shared state of a session: texts under numbers with the selection lists on them, and the clients that edit them.
//! Contracts see it as the flat world.
#![tactic(auto)]

pub mod ask;
pub mod buffer;
pub mod clients;
pub mod coming;
pub mod command_error;
pub mod dropping;
pub mod edits;
pub mod events;
pub mod faces;
pub mod highlighters;
pub mod hooks;
pub mod knowing;
pub mod laws;
mod lists;
pub mod noting;
pub mod options;
pub mod own;
pub mod playing;
pub mod purpose;
pub mod reads;
pub mod registers;
pub mod running;
pub mod saving;
mod searched;
pub mod session_tables;
pub mod showing;
pub mod since;
pub mod slots;
pub mod stepping;
pub mod turn;
mod turning;
pub mod world;

pub use ask::{Ask, Dropping, EditError, Later, Saving};
pub use buffer::WorldBuffer;
pub use clients::Client;
pub use command_error::CommandError;
pub use events::{Events, Fault, HookEvent};
pub use own::{Mode, Note, Own, Recording, SentBox, StatusText};
pub use playing::{CallText, Macro, PlayKeys, TryTexts};
pub use purpose::{NewHighlighter, NewHook, PatternUse, Purpose, Use, Wanted};
pub use slots::{MAX_BUFFERS, WorldError};
pub use turn::{AnyTurn, Turn};
pub use world::{MAX_CLIENTS, Rest, Stepping, World};
