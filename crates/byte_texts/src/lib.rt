//! Bytes, texts and lists of texts as small types of their own, which contracts see as lists of numbers.
#![tactic(auto)]

pub mod octets;
pub mod utf8_text;
pub mod words;

pub use octets::Octets;
pub use utf8_text::Utf8Text;
pub use words::Words;
