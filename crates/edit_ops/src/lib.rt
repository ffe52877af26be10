//! The replacements of an edit over several selections.
#![tactic(auto)]

pub mod aligning;
pub mod crowding;
pub mod erasing;
pub mod filling;
pub mod indenting;
pub mod joining;
pub mod kinds;
pub mod laws;
pub mod leaving;
mod line_blanks;
pub mod line_laws;
pub mod opening;
mod passing;
mod places;
pub mod putting;
pub mod reading;
pub mod rotating;
mod spans;
pub mod typing;

pub use aligning::{AlignError, align};
pub use crowding::PutError;
pub use erasing::erase;
pub use filling::fill;
pub use indenting::indent;
pub use joining::join;
pub use kinds::{Erase, Indent, Put};
pub use leaving::{after, left_list};
pub use opening::open;
pub use putting::put;
pub use reading::{strings, text_of, texts};
pub use rotating::rotate;
pub use typing::before_cursors;
