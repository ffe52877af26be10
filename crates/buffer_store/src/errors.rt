//! Why an edit of a buffer or a move in its history is refused.

ghost use Rattle.std.specs.Prelude.{◌≡◌};
ghost use Rattle.buffer_store.specs.declared.errors.BufferError.TheVariants as edit;
ghost use Rattle.buffer_store.specs.declared.errors.MoveError.TheVariants as move;

use std::alloc::AllocError;
use thiserror::Error;

/// Why an edit is refused.
#[derive(Drop, Debug, Error)]
pub enum BufferError {
    /// The edit would begin a group, and the tree has as many nodes as it may have. Nothing was changed.
    #[error("undo tree full")]
    UndoFull,
    /// The text behind one of the replacements would have more characters than a text may have. Nothing was changed.
    #[error("text is full")]
    TextFull,
    /// Memory ran out: the text is as it is behind some of the single changes, from the first on.
    #[error("out of memory")]
    NoMemory,
}

impl From<AllocError> for BufferError {
    ghost from_gives = { λ _ e. e ≡ edit.NoMemory };

    fn from(_e: AllocError) -> BufferError {
        BufferError::NoMemory
    }
}

/// Why a move leads nowhere.
#[derive(Drop, Debug, Error)]
pub enum MoveError {
    /// There is nothing to take back: the current node is the root.
    #[error("nothing to undo")]
    AtRoot,
    /// There is nothing to make again: the current node has no child that was last gone to, or come back from.
    #[error("nothing to redo")]
    NoChild,
    /// There is no node of that number.
    #[error("no undo node {0}")]
    NoNode(u32),
    /// Memory ran out: the text is as it is behind some of the single changes, from the first on. Behind the first one
    /// the history is forgotten.
    #[error("out of memory")]
    NoMemory,
}

impl From<AllocError> for MoveError {
    ghost from_gives = { λ _ e. e ≡ move.NoMemory };

    fn from(_e: AllocError) -> MoveError {
        MoveError::NoMemory
    }
}
