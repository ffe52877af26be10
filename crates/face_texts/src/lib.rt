//! Faces as texts: how a text is read as a face, and a table of faces under names, each of which may lie over another one.
#![tactic(auto)]

mod colours;
mod cover;
mod following;
mod given;
mod laws;
mod letters;
mod palette;
mod reading;
mod rows;
mod table;
mod text;

pub use laws::{bases_end, names_are_apart, palettes_have_each, worked_examples};
pub use palette::Palette;
pub use reading::read_face;
pub use rows::NamedFace;
pub use table::FaceTable;
pub use text::{FaceError, FaceText};
