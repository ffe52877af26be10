//! Why a line is refused.

use thiserror::Error;

/// Why a line is refused, in the order in which the causes are tested.
#[derive(Clone, Copy, PartialEq, Eq, Debug, Error)]
pub enum Refusal {
    /// It has more than 1,048,576 bytes.
    #[error("the line is too long")]
    TooLong,
    /// It is no UTF-8, or no JSON value within 127 levels.
    #[error("the line is no JSON value")]
    Parse,
    /// It is no request object of JSON-RPC 2.0 with a method.
    #[error("the value is no request")]
    Invalid,
    /// The method isn't known.
    #[error("unknown method")]
    Method,
    /// The parameters don't fit the method.
    #[error("the parameters don't fit the method")]
    Params,
    /// The parameter of this number, from 0, is the first that is no key text.
    #[error("parameter {0} is no key text")]
    Key(u32),
}
