//! A gate that wakes the links.

use line_gates::Gate;
use std::sync::Wait;
use unix_links::Bell;

/// Lets all lines run at once. It rings where the answer of one was sent, and where its link has ended, so that the others
/// look at once at what there is to be drawn.
#[derive(Clone)]
pub struct RingingGate {
    bell: Bell,
}

impl RingingGate {
    /// A gate that rings this bell.
    pub fn new(bell: Bell) -> RingingGate {
        RingingGate { bell }
    }
}

impl Drop for RingingGate {
    fn drop(self) {
        let RingingGate { bell } = self;
        bell.ring();
    }
}

impl Gate for RingingGate {
    fn hold<R: Wait>(&mut self, _rt: &R, _who: u32, _line: u64) {}

    fn passed(&mut self, _who: u32, _line: u64) {
        self.bell.ring();
    }
}
