//! The forms of commands: which order the words of a command are, or why they are none. Nothing here knows a text or
//! a buffer; what an order does is decided above.
#![tactic(auto)]

pub mod arguments;
pub mod describing;
pub mod error;
pub mod laws;
pub mod names;
pub mod numbers;
pub mod order;
pub mod painters;
pub mod parameters;
pub mod parting;
pub mod places;
pub mod reading;
pub mod runs;
pub mod switches;
pub mod table_orders;

pub use error::OrderError;
pub use laws::{switches_are_apart, worked_examples};
pub use names::{CommandName, command_named};
pub use numbers::whole_number;
pub use order::{
    Declaration, FaceName, FaceSetting, InfoTexts, OptionName, Order, RegisterValues, SettingOrder,
};
pub use painters::{
    HighlighterOrder, HighlighterWords, LineNumbers, MatchWords, PainterWords, PlaceFace,
};
pub use parameters::Allowed;
pub use parting::parted;
pub use places::{ArgumentPlace, Columns, Described, Descriptions, Selection};
pub use reading::read_order_of;
pub use runs::{PlayOrder, TryOrder};
pub use table_orders::{
    AliasName, AliasWords, CommandTexts, HookGroup, HookWords, KeyMapping, KeyName, TableOrder,
};
