//! Who reads lines of JSON.

use crate::decoding::decode_line;
use requests::{LineError, Reader, Request};
use std::alloc::Global;

/// Reads lines of JSON, as `decode_line` does.
pub struct JsonReader;

impl Reader for JsonReader {
    ghost use Rattle.json_ui.specs.Requests.{read_request};

    ghost reads = { read_request };

    fn read(alloc: Global, line: &[u8]) -> Result<Request, LineError> {
        decode_line(alloc, line)
    }
}
