//! Options: typed values under names, set globally, for a buffer or for a window; the innermost one counts.
#![tactic(auto)]

pub mod changing;
pub mod laws;
pub mod numbers;
pub mod options;
pub mod scope;
pub mod setting;
pub mod value;
pub mod within;

pub use laws::{settings_are_apart, worked_examples};
pub use options::{OptionError, Options};
pub use scope::Scope;
pub use setting::Setting;
pub use value::{OptionType, OptionValue};
