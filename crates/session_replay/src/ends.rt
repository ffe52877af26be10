//! How a replay ends.

/// How the reading of a replay ended.
#[derive(Clone, Copy, PartialEq, Eq, Debug)]
pub enum ReplayEnd {
    /// A client left, and none is here any more.
    Over,
    /// The input ended.
    Ended,
    /// A line is no client's.
    BadClient,
    /// The input failed.
    ReadFault,
    /// All bytes that may be taken were taken, and the input hadn't ended before.
    Full,
}
