//! The words of a server, and what they name.

ghost use Rattle.std.specs.Prelude.{◌≡◌, length, map, string_bytes, true, false, IfOk};
ghost use Rattle.std.specs.List.{list_all};
ghost use Rattle.std.specs.Option.{option_map};
ghost use Rattle.program_words.specs.ServerWords.{is_session_char, is_session_name, is_serving, is_call, session_of, file_of};

use crate::file::is_file_name;
use std::alloc::{AllocError, Global};
use thiserror::Error;

/// What the words of a server name.
#[derive(Drop, Debug)]
pub struct ServerWords {
    /// The session: 1 to 64 ASCII letters, digits, `-` or `_`.
    pub session: String,
    /// The file that is opened first, if one is named: 1 to 255 characters, none of which is a control character.
    pub file: Option<String>,
}

/// Why words weren't read.
#[derive(Clone, Copy, PartialEq, Eq, Debug, Error)]
pub enum WordsError {
    /// They aren't `-s` and a session's name, or these and a file's name.
    #[error("usage: -s <session> [file]")]
    Usage,
    /// They are a server's words, and memory is wanting for what they name.
    #[error("out of memory")]
    NoMemory,
}

// Whether a byte may stand in a session's name.
fn is_session_char(byte: u8) -> bool
    ensures { result ≡ is_session_char byte }
{
    byte.is_ascii_alphanumeric() || byte == b'-' || byte == b'_'
}

// Whether each byte of a text may stand in a session's name.
fn is_plain(text: &str) -> bool
    ensures { result ≡ list_all is_session_char text.now }
{
    text.as_bytes().iter().all(|byte| is_session_char(*byte))
}

/// Whether a session can have this name: 1 to 64 ASCII letters, digits, `-` or `_`.
pub fn is_session_name(text: &str) -> bool
    ensures { result ≡ is_session_name text.now }
{
    let count = text.len();
    0 < count && count < 65 && is_plain(text)
}

// Whether these are the words that name a session.
fn is_serving(flag: &str, session: &str) -> bool
    ensures { result ≡ is_serving flag.now session.now }
{
    flag == "-s" && is_session_name(session)
}

// Whether a server may be called by these words.
fn is_call(words: &[String]) -> bool
    ensures { result ≡ is_call (map (λ word. string_bytes word) words.now) }
{
    match words {
        [flag, session] => is_serving(flag.as_str(), session.as_str()),
        [flag, session, file] => {
            is_serving(flag.as_str(), session.as_str()) && is_file_name(file.as_str())
        }
        _ => false,
    }
}

// A copy of the word for the session.
fn copy_session(alloc: Global, words: &[String]) -> Result<String, AllocError>
    ensures { IfOk result (λ session. string_bytes session ≡ session_of (map (λ word. string_bytes word) words.now)) }
{
    match words {
        [_flag, session] => String::from_str(alloc, session.as_str()),
        [_flag, session, _file] => String::from_str(alloc, session.as_str()),
        _ => Ok(String::new(alloc)),
    }
}

// A copy of the word for the file, if there is one.
fn copy_file(alloc: Global, words: &[String]) -> Result<Option<String>, AllocError>
    ensures { IfOk result (λ file. option_map (λ name. string_bytes name) file ≡ file_of (map (λ word. string_bytes word) words.now)) }
{
    match words {
        [_flag, _session, file] => Ok(Some(String::from_str(alloc, file.as_str())?)),
        _ => Ok(None),
    }
}

/// Reads the words of a server: `-s`, a session's name, and a file's name, if one is to be opened first.
pub fn read_words(alloc: Global, words: &[String]) -> Result<ServerWords, WordsError>
    ensures refused { is_call (map (λ word. string_bytes word) words.now) ≡ false → result ≡ Err WordsError.Usage }
    ensures taken { is_call (map (λ word. string_bytes word) words.now) ≡ true → result ≡ Err WordsError.Usage → ⊥ }
    ensures session { IfOk result (λ named. string_bytes named.session ≡ session_of (map (λ word. string_bytes word) words.now)) }
    ensures file { IfOk result (λ named. option_map (λ name. string_bytes name) named.file ≡ file_of (map (λ word. string_bytes word) words.now)) }
{
    if !is_call(words) {
        return Err(WordsError::Usage);
    }
    let Ok(session) = copy_session(alloc, words) else {
        return Err(WordsError::NoMemory);
    };
    let Ok(file) = copy_file(alloc, words) else {
        return Err(WordsError::NoMemory);
    };
    Ok(ServerWords { session, file })
}
