//! Bytes in a row.

use sequences::Seq;

/// Bytes, seen as their list.
pub type Octets = Seq<u8>;
