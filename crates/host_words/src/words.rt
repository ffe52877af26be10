//! The words that a program is called by.

use std::rt::Env;
use std::{env, io};
use thiserror::Error;

/// Why the words of a call can't be had.
#[derive(Clone, Copy, PartialEq, Eq, Debug, Error)]
pub enum NoWords {
    /// One of them isn't UTF-8.
    #[error("a word isn't UTF-8")]
    NotUtf8,
    /// Memory ran out.
    #[error("out of memory")]
    NoMemory,
}

// The words behind the program's name, or what the system answered in their place.
fn words_or_error<R: Env + AllocGlobal>(rt: &R) -> io::Result<Vec<String>> {
    let mut words = Vec::new(rt.alloc());
    for word in env::args(rt)?.skip(1) {
        words.push(word)?;
    }
    Ok(words)
}

/// The words behind the program's name. Of these no clause can tell.
pub fn words_given<R: Env + AllocGlobal>(rt: &R) -> Result<Vec<String>, NoWords> {
    match words_or_error(rt) {
        Ok(words) => Ok(words),
        Err(error) => match error.kind() {
            io::ErrorKind::InvalidData => Err(NoWords::NotUtf8),
            _ => Err(NoWords::NoMemory),
        },
    }
}
