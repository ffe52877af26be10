//! The user interface's JSON lines: lines to requests, and (from `json_writing`) drawings and refusals to bytes. What
//! reads stands on `serde_json`, what writes doesn't.
#![tactic(auto)]

mod decoding;
mod examples;
mod methods;
mod parameters;
mod reader;

pub use decoding::{MAX_LINE, decode_line};
pub use drawings::{Atom, Atoms, Cursor, Drawing, DrawnLine, DrawnLines, Info, InfoBox, Refusal};
pub use examples::{number_examples, read_examples};
pub use json_writing::{encode_drawing, encode_refusal};
pub use mouse_events::{Button, Mouse};
pub use reader::JsonReader;
pub use requests::{LineError, Reader, Request};
pub use text_model::Coord;
pub use window_view::Size;
