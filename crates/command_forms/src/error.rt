//! Why words are no order.

ghost use Rattle.std.specs.Prelude.{◌≡◌};
ghost use Rattle.command_forms.specs.declared.error.OrderError.TheVariants.{NoMemory};

use byte_texts::Utf8Text;
use std::alloc::AllocError;
use thiserror::Error;

/// Why words are no order.
#[derive(Drop, Debug, Error)]
pub enum OrderError {
    /// The command takes more or fewer words, or a switch lacks the word that goes with it.
    #[error("wrong argument count")]
    WrongArgumentCount,
    /// The command has no switch of this name, which is told with its dash.
    #[error("unknown switch: {0}")]
    UnknownSwitch(Utf8Text),
    /// A word that names a type names none, or one that says numbers of parameters says none.
    #[error("bad value")]
    BadValue,
    /// No highlighters have this type.
    #[error("no such highlighter: {0}")]
    NoSuchHighlighter(Utf8Text),
    /// This word describes no selection.
    #[error("bad selection description: {0}")]
    BadSelection(Utf8Text),
    /// Memory ran out.
    #[error("out of memory")]
    NoMemory,
}

impl From<AllocError> for OrderError {
    ghost from_gives = { λ _ e. e ≡ NoMemory };

    fn from(_error: AllocError) -> OrderError {
        OrderError::NoMemory
    }
}
