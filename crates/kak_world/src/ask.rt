//! What one key or one command gives: an ask for what comes next, or a refusal.

ghost use Rattle.std.specs.Prelude.{◌≡◌, ◌++◌, ◌∷◌, [], chars, IfOk, IsErr};
ghost use Rattle.kak_world.specs.declared.ask.EditError.TheVariants.{NoMemory};
ghost use Rattle.kak_world.specs.Refusals.{of_edit, of_move, of_register};

use crate::command_error::{CommandError, NO_SUCH_REGISTER};
use crate::playing::{CallText, PlayKeys, TryTexts};
use crate::purpose::PatternUse;
use buffer_store::{BufferError, MoveError};
use byte_texts::Utf8Text;
use kak_registers::RegisterError;
use kak_text::Chars;
use std::alloc::{AllocError, Global};
use thiserror::Error;

// The status texts of the refusals, each before what it names, where it names something.
const BUDGET_SPENT: &str = "given up: budget spent";

const TEXT_FULL: &str = "text is full";

const UNDO_FULL: &str = "undo tree full";

const NOTHING_TO_UNDO: &str = "nothing to undo";

const NOTHING_TO_REDO: &str = "nothing to redo";

const NO_SUCH_NODE: &str = "no such undo node";

const READ_ONLY_REGISTER: &str = "register is read only: ";

const REGISTER_FULL: &str = "register is full";

const SHARED_LINE: &str = "align needs one selection per line";

const BAD_PATTERN: &str = "bad pattern";

const NOTHING_SELECTED: &str = "nothing selected";

const TOO_MANY_SELECTIONS: &str = "too many selections";

/// What the engine is to do after a key or a command.
#[derive(Drop, Debug)]
pub enum Ask {
    /// Nothing more.
    Nothing,
    /// Run a text as commands.
    Commands(Chars),
    /// Run keys.
    Play(PlayKeys),
    /// Run a text as commands, inside what asks for it.
    Eval(Chars),
    /// Run a text as commands, and another one where that fails.
    Try(TryTexts),
    /// Run what a command was defined as.
    Call(CallText),
    /// Make a pattern, and go on with it.
    Make(PatternUse),
    /// Read the file of this name, and show its text as a buffer.
    Read(Utf8Text),
    /// Write the text of a buffer to a file.
    Write(Saving),
    /// Go on, once the hooks were run of what was done.
    Then(Later),
    /// Let the client leave.
    Leave,
}

/// What a row goes on with, once the hooks were run of what it did.
#[derive(Drop, Debug)]
pub enum Later {
    /// The text of a buffer is written to a file.
    Write(Saving),
    /// The client leaves, unless something would be lost.
    Quit,
    /// A buffer is dropped.
    Drop(Dropping),
}

/// A buffer whose text is to be written to a file.
#[derive(Drop, Debug)]
pub struct Saving {
    /// The file's name.
    pub file: Utf8Text,
    /// The buffer's number, and its name as it was.
    pub buffer: u32,
    pub name: Utf8Text,
    /// Whether the client is to leave behind it.
    pub quits: bool,
}

/// A buffer that is to be dropped.
#[derive(Drop, Debug)]
pub struct Dropping {
    /// Its number, and its name as it was.
    pub buffer: u32,
    pub name: Utf8Text,
}

/// Why a key or a command was refused. Its status text is what the user is told.
#[derive(Drop, Debug, Error)]
pub enum EditError {
    /// The text would have more characters than a text may have.
    #[error("{text}", text = TEXT_FULL)]
    TextFull,
    /// The undo tree has as many nodes as it may have, and the edit would begin one.
    #[error("{text}", text = UNDO_FULL)]
    UndoFull,
    /// There is nothing to take back.
    #[error("{text}", text = NOTHING_TO_UNDO)]
    NothingToUndo,
    /// There is nothing to make again.
    #[error("{text}", text = NOTHING_TO_REDO)]
    NothingToRedo,
    /// The undo tree has no such node.
    #[error("{text}", text = NO_SUCH_NODE)]
    NoSuchNode,
    /// There is no register of that name.
    #[error("{text}{0}", text = NO_SUCH_REGISTER)]
    NoSuchRegister(char),
    /// The register is only read.
    #[error("{text}{0}", text = READ_ONLY_REGISTER)]
    ReadOnlyRegister(char),
    /// The register would hold more characters than one may.
    #[error("{text}", text = REGISTER_FULL)]
    RegisterFull,
    /// Two selections begin on one line, where one on each is asked for.
    #[error("{text}", text = SHARED_LINE)]
    SharedLine,
    /// Why a command was.
    #[error("{0}")]
    Command(CommandError),
    /// The text of a pattern is none, or that of one that is too big.
    #[error("{text}", text = BAD_PATTERN)]
    BadPattern,
    /// No selection would be left.
    #[error("{text}", text = NOTHING_SELECTED)]
    NothingSelected,
    /// There would be more selections than there may be.
    #[error("{text}", text = TOO_MANY_SELECTIONS)]
    TooManySelections,
    /// A further run was due, and the step had no unit left; what was done before stays done.
    #[error("{text}", text = BUDGET_SPENT)]
    BudgetSpent,
    /// Memory ran out; the world may have been changed in part.
    #[error("out of memory")]
    NoMemory,
}

impl From<AllocError> for EditError {
    ghost from_gives = { λ _ e. e ≡ NoMemory };

    fn from(_e: AllocError) -> EditError {
        EditError::NoMemory
    }
}

impl From<BufferError> for EditError {
    ghost from_gives = { λ b e. e ≡ of_edit b };

    fn from(error: BufferError) -> EditError {
        match error {
            BufferError::UndoFull => EditError::UndoFull,
            BufferError::TextFull => EditError::TextFull,
            BufferError::NoMemory => EditError::NoMemory,
        }
    }
}

impl From<MoveError> for EditError {
    ghost from_gives = { λ m e. e ≡ of_move m };

    fn from(error: MoveError) -> EditError {
        match error {
            MoveError::AtRoot => EditError::NothingToUndo,
            MoveError::NoChild => EditError::NothingToRedo,
            MoveError::NoNode(_) => EditError::NoSuchNode,
            MoveError::NoMemory => EditError::NoMemory,
        }
    }
}

impl From<RegisterError> for EditError {
    ghost from_gives = { λ r e. e ≡ of_register r };

    fn from(error: RegisterError) -> EditError {
        match error {
            RegisterError::NoRegister(name) => EditError::NoSuchRegister(name),
            RegisterError::ReadOnly(name) => EditError::ReadOnlyRegister(name),
            RegisterError::RegisterFull => EditError::RegisterFull,
            RegisterError::NoMemory => EditError::NoMemory,
        }
    }
}

// A status text that ends in the name of a register.
fn with_name(alloc: Global, text: &str, name: char) -> Result<Chars, AllocError>
    ensures { IfOk result (λ whole. whole ≡ chars text.now ++ name ∷ []) }
{
    let mut whole = Chars::from_str(alloc, text)?;
    whole.push(name)?;
    Ok(whole)
}

impl EditError {
    ghost use Rattle.kak_world.specs.Rows.{error_text};

    /// The status text. Want of memory has none, so that it is answered by an `Err`.
    pub fn text(&self, alloc: Global) -> Result<Chars, AllocError>
        ensures text { IfOk result (λ text. text ≡ error_text self.now) }
        ensures memory { self.now ≡ EditError.NoMemory → IsErr result }
    {
        match self {
            EditError::TextFull => Chars::from_str(alloc, TEXT_FULL),
            EditError::UndoFull => Chars::from_str(alloc, UNDO_FULL),
            EditError::NothingToUndo => Chars::from_str(alloc, NOTHING_TO_UNDO),
            EditError::NothingToRedo => Chars::from_str(alloc, NOTHING_TO_REDO),
            EditError::NoSuchNode => Chars::from_str(alloc, NO_SUCH_NODE),
            EditError::BadPattern => Chars::from_str(alloc, BAD_PATTERN),
            EditError::NothingSelected => Chars::from_str(alloc, NOTHING_SELECTED),
            EditError::TooManySelections => Chars::from_str(alloc, TOO_MANY_SELECTIONS),
            EditError::BudgetSpent => Chars::from_str(alloc, BUDGET_SPENT),
            EditError::RegisterFull => Chars::from_str(alloc, REGISTER_FULL),
            EditError::SharedLine => Chars::from_str(alloc, SHARED_LINE),
            EditError::NoSuchRegister(name) => with_name(alloc, NO_SUCH_REGISTER, *name),
            EditError::ReadOnlyRegister(name) => with_name(alloc, READ_ONLY_REGISTER, *name),
            EditError::Command(error) => error.text(alloc),
            EditError::NoMemory => Err(AllocError),
        }
    }
}
