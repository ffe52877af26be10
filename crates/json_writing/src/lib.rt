//! Drawings and refusals as lines of JSON, written straight into bytes.
#![tactic(auto)]

mod atom_ends;
mod drawing_bytes;
mod examples;
mod face_bytes;
mod line_bytes;
mod refusal_bytes;
mod text_bytes;

pub use drawing_bytes::encode_drawing;
pub use examples::worked_examples;
pub use refusal_bytes::encode_refusal;
