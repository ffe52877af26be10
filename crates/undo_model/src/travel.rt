//! Where a move in a buffer's history is to lead.

/// A move in the history of a buffer.
#[derive(Clone, Copy, PartialEq, Eq, Debug)]
pub enum Travel {
    /// To the parent of the current node: its changes are taken back.
    Undo,
    /// To the child that was last gone to, or come back from.
    Redo,
    /// To the node of a number.
    Node(u32),
}
