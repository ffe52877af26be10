//! Where the clients of a replay are.

/// Where a client of a replay is.
#[derive(Clone, Copy, PartialEq, Eq, Debug)]
pub enum ClientPlace {
    /// It hasn't come yet.
    Away,
    /// It is here.
    Here,
    /// It has gone.
    Gone,
}
