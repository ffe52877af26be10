//! Texts from the bytes of files, and bytes from texts.
#![tactic(auto)]

pub mod decoding;
pub mod encoding;
pub mod form;
pub mod laws;
mod lines;

pub use decoding::decode;
pub use encoding::encode;
pub use form::{Bom, DecodeError, Eol, Loaded};
