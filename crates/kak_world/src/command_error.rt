//! Why a command was refused.

ghost use Rattle.std.specs.Prelude.{◌≡◌, ◌++◌, chars, decimal, IfOk};
ghost use Rattle.kak_world.specs.declared.ask.EditError.TheVariants.{Command as OfCommand};
ghost use Rattle.kak_world.specs.CommandErrors.{command_text};

use crate::ask::EditError;
use byte_texts::Utf8Text;
use kak_text::Chars;
use std::alloc::{AllocError, Global};
use thiserror::Error;

/// The status text where a word or a character names no register, before that name.
pub(crate) const NO_SUCH_REGISTER: &str = "no such register: ";

/// The status text where there are as many buffers as there may be.
pub(crate) const TOO_MANY_BUFFERS: &str = "too many buffers";

// The status texts of the other refusals, each before what it names, where it names something.
const UNCLOSED_AT: &str = "unclosed at ";

const UNKNOWN_EXPANSION: &str = "unknown expansion: ";

const NO_SUCH_COMMAND: &str = "no such command: ";

const WRONG_ARGUMENT_COUNT: &str = "wrong argument count";

const UNKNOWN_SWITCH: &str = "unknown switch: ";

const BAD_VALUE: &str = "bad value";

const BAD_SELECTION: &str = "bad selection description: ";

const NO_SUCH_OPTION: &str = "no such option: ";

const NO_SUCH_SCOPE: &str = "no such scope: ";

const OPTION_EXISTS: &str = "option exists: ";

const NO_SUCH_BUFFER: &str = "no such buffer: ";

const MODIFIED_REMAIN: &str = "modified buffers remain: ";

const FILE_FAULT: &str = "file fault: ";

const NOT_UTF8: &str = "not UTF-8 at byte ";

const NO_SUCH_FACE: &str = "no such face: ";

const FACE_CYCLE: &str = "face cycle: ";

const BAD_FACE_AT: &str = "bad face at ";

const NO_SUCH_HIGHLIGHTER: &str = "no such highlighter: ";

const HIGHLIGHTER_EXISTS: &str = "highlighter exists: ";

const BAD_KEY_AT: &str = "bad key at ";

const NO_SUCH_MODE: &str = "no such mode: ";

const NO_SUCH_HOOK: &str = "no such hook: ";

const TOO_MANY_HOOKS: &str = "too many hooks";

/// Why a command was refused. Its status text is what the user is told.
#[derive(Drop, Debug, Error)]
pub enum CommandError {
    /// A quote or a bracket isn't closed; the character of the text, from 0, at which it opens.
    #[error("{text}{0}", text = UNCLOSED_AT)]
    Unclosed(usize),
    /// There is no expansion of this name.
    #[error("{text}{0}", text = UNKNOWN_EXPANSION)]
    UnknownExpansion(Utf8Text),
    /// There is no such command.
    #[error("{text}{0}", text = NO_SUCH_COMMAND)]
    NoSuchCommand(Utf8Text),
    /// The command takes another number of words.
    #[error("{text}", text = WRONG_ARGUMENT_COUNT)]
    WrongArgumentCount,
    /// The command has no such switch.
    #[error("{text}{0}", text = UNKNOWN_SWITCH)]
    UnknownSwitch(Utf8Text),
    /// A word is no value of its kind, or one that the option doesn't take.
    #[error("{text}", text = BAD_VALUE)]
    BadValue,
    /// A word describes no selection.
    #[error("{text}{0}", text = BAD_SELECTION)]
    BadSelection(Utf8Text),
    /// There is no register of this name.
    #[error("{text}{0}", text = NO_SUCH_REGISTER)]
    NoSuchRegister(Utf8Text),
    /// There is no option of this name.
    #[error("{text}{0}", text = NO_SUCH_OPTION)]
    NoSuchOption(Utf8Text),
    /// The word is no scope that the command takes.
    #[error("{text}{0}", text = NO_SUCH_SCOPE)]
    NoSuchScope(Utf8Text),
    /// The option exists with another type.
    #[error("{text}{0}", text = OPTION_EXISTS)]
    OptionExists(Utf8Text),
    /// There is no buffer of this name.
    #[error("{text}{0}", text = NO_SUCH_BUFFER)]
    NoSuchBuffer(Utf8Text),
    /// There are as many buffers as there may be.
    #[error("{text}", text = TOO_MANY_BUFFERS)]
    TooManyBuffers,
    /// What was changed in these buffers would be lost; their names, with a space between them.
    #[error("{text}{0}", text = MODIFIED_REMAIN)]
    ModifiedRemain(Chars),
    /// The file of this name can't be read or written.
    #[error("{text}{0}", text = FILE_FAULT)]
    FileFault(Utf8Text),
    /// The byte of the file, from 0, at which no character of UTF-8 begins.
    #[error("{text}{0}", text = NOT_UTF8)]
    NotUtf8(usize),
    /// No face of this name is set.
    #[error("{text}{0}", text = NO_SUCH_FACE)]
    NoSuchFace(Utf8Text),
    /// Following bases would come back to the face of this name.
    #[error("{text}{0}", text = FACE_CYCLE)]
    FaceCycle(Utf8Text),
    /// The character of a text, from 0, at which no face can be read.
    #[error("{text}{0}", text = BAD_FACE_AT)]
    BadFace(usize),
    /// There is no highlighter of this path, none can stand there, or it is no type of one.
    #[error("{text}{0}", text = NO_SUCH_HIGHLIGHTER)]
    NoSuchHighlighter(Utf8Text),
    /// There is a highlighter of this path.
    #[error("{text}{0}", text = HIGHLIGHTER_EXISTS)]
    HighlighterExists(Utf8Text),
    /// The character of a text, from 0, at which no key can be read.
    #[error("{text}{0}", text = BAD_KEY_AT)]
    BadKey(usize),
    /// There is no mode of this name.
    #[error("{text}{0}", text = NO_SUCH_MODE)]
    NoSuchMode(Utf8Text),
    /// There is no hook of this name.
    #[error("{text}{0}", text = NO_SUCH_HOOK)]
    NoSuchHook(Utf8Text),
    /// The scope has as many hooks as it may have.
    #[error("{text}", text = TOO_MANY_HOOKS)]
    TooManyHooks,
    /// It was to fail, with this text.
    #[error("{0}")]
    Failed(Utf8Text),
}

impl From<CommandError> for EditError {
    ghost from_gives = { λ c e. e ≡ OfCommand c };

    fn from(error: CommandError) -> EditError {
        EditError::Command(error)
    }
}

// A status text that ends in a word.
fn with_word(alloc: Global, text: &str, word: &Utf8Text) -> Result<Chars, AllocError>
    ensures { IfOk result (λ whole. whole ≡ chars text.now ++ chars word.now) }
{
    let mut whole = Chars::from_str(alloc, text)?;
    let word = Chars::from_str(alloc, word.as_str())?;
    whole.extend_from_slice(word.as_slice())?;
    Ok(whole)
}

// A status text that ends in a number.
fn with_number(alloc: Global, text: &str, number: usize) -> Result<Chars, AllocError>
    ensures { IfOk result (λ whole. whole ≡ chars text.now ++ decimal number) }
{
    let mut whole = Chars::from_str(alloc, text)?;
    let number = number as u64;
    let digits = format!(in alloc; "{number}")?;
    let digits = Chars::from_str(alloc, digits.as_str())?;
    whole.extend_from_slice(digits.as_slice())?;
    Ok(whole)
}

// A status text that ends in names.
fn with_names(alloc: Global, text: &str, names: &Chars) -> Result<Chars, AllocError>
    ensures { IfOk result (λ whole. whole ≡ chars text.now ++ names.now) }
{
    let mut whole = Chars::from_str(alloc, text)?;
    whole.extend_from_slice(names.as_slice())?;
    Ok(whole)
}

impl CommandError {
    /// The status text.
    pub fn text(&self, alloc: Global) -> Result<Chars, AllocError>
        ensures { IfOk result (λ text. text ≡ command_text self.now) }
    {
        match self {
            CommandError::Unclosed(at) => with_number(alloc, UNCLOSED_AT, *at),
            CommandError::UnknownExpansion(word) => with_word(alloc, UNKNOWN_EXPANSION, word),
            CommandError::NoSuchCommand(word) => with_word(alloc, NO_SUCH_COMMAND, word),
            CommandError::WrongArgumentCount => Chars::from_str(alloc, WRONG_ARGUMENT_COUNT),
            CommandError::UnknownSwitch(word) => with_word(alloc, UNKNOWN_SWITCH, word),
            CommandError::BadValue => Chars::from_str(alloc, BAD_VALUE),
            CommandError::BadSelection(word) => with_word(alloc, BAD_SELECTION, word),
            CommandError::NoSuchRegister(word) => with_word(alloc, NO_SUCH_REGISTER, word),
            CommandError::NoSuchOption(word) => with_word(alloc, NO_SUCH_OPTION, word),
            CommandError::NoSuchScope(word) => with_word(alloc, NO_SUCH_SCOPE, word),
            CommandError::OptionExists(word) => with_word(alloc, OPTION_EXISTS, word),
            CommandError::NoSuchBuffer(word) => with_word(alloc, NO_SUCH_BUFFER, word),
            CommandError::TooManyBuffers => Chars::from_str(alloc, TOO_MANY_BUFFERS),
            CommandError::ModifiedRemain(names) => with_names(alloc, MODIFIED_REMAIN, names),
            CommandError::FileFault(word) => with_word(alloc, FILE_FAULT, word),
            CommandError::NotUtf8(at) => with_number(alloc, NOT_UTF8, *at),
            CommandError::NoSuchFace(word) => with_word(alloc, NO_SUCH_FACE, word),
            CommandError::FaceCycle(word) => with_word(alloc, FACE_CYCLE, word),
            CommandError::BadFace(at) => with_number(alloc, BAD_FACE_AT, *at),
            CommandError::NoSuchHighlighter(word) => with_word(alloc, NO_SUCH_HIGHLIGHTER, word),
            CommandError::HighlighterExists(word) => with_word(alloc, HIGHLIGHTER_EXISTS, word),
            CommandError::BadKey(at) => with_number(alloc, BAD_KEY_AT, *at),
            CommandError::NoSuchMode(word) => with_word(alloc, NO_SUCH_MODE, word),
            CommandError::NoSuchHook(word) => with_word(alloc, NO_SUCH_HOOK, word),
            CommandError::TooManyHooks => Chars::from_str(alloc, TOO_MANY_HOOKS),
            CommandError::Failed(word) => Chars::from_str(alloc, word.as_str()),
        }
    }
}
