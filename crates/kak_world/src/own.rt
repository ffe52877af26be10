//! What is a client's own: all that no change of a text reads or changes.

use crate::purpose::Purpose;
use edit_line::EditLine;
use kak_faces::Face;
use kak_text::Chars;
use key_names::{Key, Keys};
use window_view::Size;

/// The mode of a client, by which its keys are read.
#[derive(Clone, Copy, PartialEq, Eq, Debug)]
pub enum Mode {
    Normal,
    Insert,
    Prompt,
}

/// What stands in a client's status line.
#[derive(Drop, Debug)]
pub enum StatusText {
    /// Nothing.
    Quiet,
    /// What a command says.
    Said(Chars),
    /// Why a key or a command was refused.
    Refused(Chars),
}

/// Keys that a client records, to be run as a macro.
#[derive(Drop, Debug)]
pub struct Recording {
    /// The register that they are for.
    pub register: char,
    /// The keys that were struck so far.
    pub struck: Keys,
    /// Whether it takes the key that is struck now.
    pub listens: bool,
}

/// A box that a client is to be shown: its title, which may be empty, and its content, of lines with newlines between them.
#[derive(Drop, Debug)]
pub struct Note {
    pub title: Chars,
    pub content: Chars,
}

/// A box as a drawing had it.
#[derive(Drop, Debug)]
pub struct SentBox {
    pub title: Chars,
    pub content: Chars,
    pub face: Face,
}

/// What is a client's own.
#[derive(Drop, Debug)]
pub struct Own {
    pub mode: Mode,
    /// How often the next key is to be run, as digits have said so far; 0 where none did.
    pub count: u32,
    /// The register that was chosen for the next key, if one was.
    pub register: Option<char>,
    /// The key that waits for another one, where one does, as the first of `fx`.
    pub pending: Option<Key>,
    pub status: StatusText,
    /// Whether insert mode was entered behind the selections, so that leaving it takes their cursors back.
    pub appending: bool,
    /// What the line of the prompt is taken as.
    pub purpose: Purpose,
    /// What was typed into the prompt, with the cursor there.
    pub prompt: EditLine,
    /// The keys that are recorded, where some are.
    pub recording: Option<Recording>,
    /// Whether the client was granted to leave.
    pub leaving: bool,
    /// Whether the client was drawn before.
    pub drawn: bool,
    /// Whether its left mouse button is down: it was pressed, and neither released nor followed by a key.
    pub dragging: bool,
    /// How many rows and columns each of its windows has, also one on a buffer that it sees later.
    pub size: Size,
    /// The box that it is to be shown, if there is one.
    pub info: Option<Note>,
    /// The box as its last drawing had it, if that had one.
    pub sent: Option<SentBox>,
}
