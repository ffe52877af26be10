//! What a look at an engine shows.

/// What one client is shown of the engine at a desk.
#[derive(Clone, Copy, PartialEq, Eq, Debug)]
pub struct Glimpse {
    /// Whether the client is here, and something to be drawn stands behind its last drawing.
    pub stale: bool,
    /// How many clients are here.
    pub joined: u32,
    /// How many clients have come.
    pub joins: u64,
    /// How many entries stood when the engine broke, if it did.
    pub broken: Option<u64>,
}
