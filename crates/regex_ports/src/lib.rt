//! Patterns as the editor sees them: traits for a maker of patterns and for a pattern, one over the kit's regular
//! expressions, and a maker that refuses planned patterns, and one that refuses all.
#![tactic(auto)]

mod grouping;
pub mod laws;
pub mod maker;
pub mod none;
pub mod pattern;
pub mod refusing;
pub mod regular;
mod searching;
mod seeking;
pub mod texts;

pub use maker::{Made, PatternMaker};
pub use none::{NoPattern, NoPatterns};
pub use pattern::{GroupSpan, Groups, Pattern, Span};
pub use refusing::RefusingMaker;
pub use regular::{RegexMaker, RegexPattern};
pub use texts::Texts;
