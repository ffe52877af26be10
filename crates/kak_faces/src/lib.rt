//! Faces: the colours and attributes in which a character is drawn, how one face lies over another,
//! and the faces that are there from the start.
#![tactic(auto)]

mod colour;
mod face;
mod laws;
mod standard;

pub use colour::{Attribute, Attributes, Colour, NamedColour};
pub use face::{Face, merge};
pub use laws::{merge_laws, worked_examples};
pub use standard::StandardFace;
