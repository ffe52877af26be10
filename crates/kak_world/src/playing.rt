//! What a key or a command can ask to be run inside the step: keys, and texts as commands.

use byte_texts::Words;
use kak_text::Chars;
use key_names::Keys;

/// A register whose keys are run, and how often more.
#[derive(Clone, Copy, PartialEq, Eq, Debug)]
pub struct Macro {
    pub register: char,
    pub further: u32,
}

/// Keys that are to be run, from normal mode on.
#[derive(Drop, Debug)]
pub struct PlayKeys {
    pub keys: Keys,
    /// Whether hooks are run of what the keys do.
    pub hooks: bool,
    /// Whether a key that is mapped to others stands for these.
    pub maps: bool,
    /// The macro that is run once more behind them, where they are a macro's.
    pub again: Option<Macro>,
}

/// A text that is to be run as commands, and the one that is run where it fails.
#[derive(Drop, Debug)]
pub struct TryTexts {
    pub first: Chars,
    pub catching: Chars,
}

/// What a command was defined as, a text that is to be run as commands, and the words that it was given.
#[derive(Drop, Debug)]
pub struct CallText {
    pub text: Chars,
    pub arguments: Words,
}
