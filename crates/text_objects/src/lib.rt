//! The objects of a text at a cursor, such as words, paragraphs and what stands between brackets: each call gives the
//! two ends of one, or nothing where there is none.
#![tactic(auto)]

pub mod bracket_objects;
pub mod kinds;
pub mod laws;
pub mod line_objects;
mod line_runs;
pub mod objects;
pub mod quote_objects;
pub mod run_objects;
mod runs;
mod sentence_marks;
pub mod sentence_objects;

pub use bracket_objects::{around_brackets, inner_brackets};
pub use kinds::Object;
pub use line_objects::{around_indent, around_paragraph, inner_indent, inner_paragraph};
pub use objects::{around, inner};
pub use quote_objects::{around_quotes, inner_quotes};
pub use run_objects::{
    around_blanks, around_number, around_word, inner_blanks, inner_number, inner_word,
};
pub use sentence_objects::{around_sentence, inner_sentence};
