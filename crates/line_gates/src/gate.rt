//! What a server asks before a line runs.

use std::sync::Wait;

/// Says when the lines of connections may run. Nothing is claimed of how long it waits.
pub trait Gate: Drop {
    /// Returns when the line may run: `who` is the client's number, `line` that of its line, from 0.
    fn hold<R: Wait>(&mut self, rt: &R, who: u32, line: u64);

    /// Is told that the line's answer was sent.
    fn passed(&mut self, who: u32, line: u64);
}

/// Lets all lines run at once.
#[derive(Clone, Copy, Debug)]
pub struct OpenGate;

impl Gate for OpenGate {
    fn hold<R: Wait>(&mut self, _rt: &R, _who: u32, _line: u64) {}

    fn passed(&mut self, _who: u32, _line: u64) {}
}
