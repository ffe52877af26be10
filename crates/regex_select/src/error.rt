//! Why nothing was selected.

ghost use Rattle.std.specs.Prelude.{◌≡◌};
ghost use Rattle.regex_select.specs.declared.error.SelectError.TheVariants.{NoMemory};

use std::alloc::AllocError;
use thiserror::Error;

/// Why no list was made. The list that stood is left as it was.
#[derive(Clone, Copy, PartialEq, Eq, Debug, Error)]
pub enum SelectError {
    /// Nothing would be selected.
    #[error("nothing selected")]
    NoMatch,
    /// There would be more than `MAX_SELECTIONS` selections before they are settled.
    #[error("too many selections")]
    TooMany,
    /// Memory ran out.
    #[error("out of memory")]
    NoMemory,
}

impl From<AllocError> for SelectError {
    ghost from_gives = { λ _ e. e ≡ NoMemory };

    fn from(_e: AllocError) -> SelectError {
        SelectError::NoMemory
    }
}
