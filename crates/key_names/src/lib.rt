//! Key texts: reading `ihi<esc>` as keys, and printing a key in its canonical spelling.
#![tactic(auto)]

mod examples;
mod key;
mod naming;
mod printing;
mod reading;

pub use examples::worked_examples;
pub use key::{Base, Key, Keys};
pub use printing::print_key;
pub use reading::{KeyError, read_keys};
