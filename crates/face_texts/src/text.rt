//! A face as it is written, and why there is none.

ghost use Rattle.std.specs.Prelude.{◌≡◌};
ghost use Rattle.face_texts.specs.declared.text.FaceError.TheVariants.{NoMemory};

use byte_texts::Utf8Text;
use kak_faces::Face;
use std::alloc::AllocError;
use thiserror::Error;

/// A face as it is written: what it says itself, and the name of the face that it lies over, if it has one.
#[derive(Drop, Debug)]
pub struct FaceText {
    pub face: Face,
    pub base: Option<Utf8Text>,
}

/// Why a text is no face, or a name isn't set.
#[derive(Drop, Debug, Error)]
pub enum FaceError {
    /// The character of the text at this place (from 0) has no reading, or the end, and none before it.
    #[error("bad face at {0}")]
    BadFace(usize),
    /// Following bases would come back to this name.
    #[error("face cycle: {0}")]
    Cycle(Utf8Text),
    /// Memory ran out.
    #[error("out of memory")]
    NoMemory,
}

impl From<AllocError> for FaceError {
    ghost from_gives = { λ _ e. e ≡ NoMemory };

    fn from(_error: AllocError) -> FaceError {
        FaceError::NoMemory
    }
}
