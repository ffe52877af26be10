//! What a refusal prints is its status text: a row for each refusal.

use byte_texts::Utf8Text;
use kak_text::Chars;
use kak_world::{CommandError, EditError};
use std::alloc::{AllocError, Global};
use std::test::Fail;

// Whether a refusal prints this text, and has it as its status text.
fn is_told(alloc: Global, error: &EditError, wanted: &str) -> Result<bool, AllocError> {
    let text = error.text(alloc)?;
    let told = format!(in alloc; "{text}")?;
    let printed = format!(in alloc; "{error}")?;
    Ok(told.as_str() == wanted && printed.as_str() == wanted)
}

// The same of a refusal of a command.
fn is_command_told(alloc: Global, error: CommandError, wanted: &str) -> Result<bool, AllocError> {
    is_told(alloc, &EditError::Command(error), wanted)
}

#[test]
fn refusals_of_keys_print_their_status_texts(rt: HostRuntime) -> Result<(), Fail> {
    let alloc = rt.alloc();
    assert!(rt; is_told(alloc, &EditError::TextFull, "text is full")?);
    assert!(rt; is_told(alloc, &EditError::UndoFull, "undo tree full")?);
    assert!(rt; is_told(alloc, &EditError::NothingToUndo, "nothing to undo")?);
    assert!(rt; is_told(alloc, &EditError::NothingToRedo, "nothing to redo")?);
    assert!(rt; is_told(alloc, &EditError::NoSuchNode, "no such undo node")?);
    assert!(rt;
        is_told(
            alloc,
            &EditError::NoSuchRegister('é'),
            "no such register: é"
        )?
    );
    assert!(rt;
        is_told(
            alloc,
            &EditError::ReadOnlyRegister('%'),
            "register is read only: %"
        )?
    );
    assert!(rt; is_told(alloc, &EditError::RegisterFull, "register is full")?);
    assert!(rt;
        is_told(
            alloc,
            &EditError::SharedLine,
            "align needs one selection per line"
        )?
    );
    assert!(rt; is_told(alloc, &EditError::BadPattern, "bad pattern")?);
    assert!(rt; is_told(alloc, &EditError::NothingSelected, "nothing selected")?);
    assert!(rt; is_told(alloc, &EditError::TooManySelections, "too many selections")?);
    assert!(rt; is_told(alloc, &EditError::BudgetSpent, "given up: budget spent")?);
    Ok(())
}

#[test]
fn refusals_of_commands_print_their_status_texts(rt: HostRuntime) -> Result<(), Fail> {
    let alloc = rt.alloc();
    let count = CommandError::WrongArgumentCount;
    assert!(rt; is_command_told(alloc, count, "wrong argument count")?);
    assert!(rt; is_command_told(alloc, CommandError::BadValue, "bad value")?);
    assert!(rt; is_command_told(alloc, CommandError::TooManyBuffers, "too many buffers")?);
    assert!(rt; is_command_told(alloc, CommandError::Unclosed(10), "unclosed at 10")?);
    assert!(rt; is_command_told(alloc, CommandError::NotUtf8(7), "not UTF-8 at byte 7")?);
    let names = Chars::from_str(alloc, "a b")?;
    let remain = CommandError::ModifiedRemain(names);
    assert!(rt; is_command_told(alloc, remain, "modified buffers remain: a b")?);
    Ok(())
}

// The word that the rows below name.
fn word(alloc: Global) -> Result<Utf8Text, AllocError> {
    Utf8Text::from_str(alloc, "é")
}

#[test]
fn refusals_that_name_a_word_print_it(rt: HostRuntime) -> Result<(), Fail> {
    let alloc = rt.alloc();
    let refused = CommandError::UnknownExpansion(word(alloc)?);
    assert!(rt; is_command_told(alloc, refused, "unknown expansion: é")?);
    let refused = CommandError::NoSuchCommand(word(alloc)?);
    assert!(rt; is_command_told(alloc, refused, "no such command: é")?);
    let refused = CommandError::UnknownSwitch(word(alloc)?);
    assert!(rt; is_command_told(alloc, refused, "unknown switch: é")?);
    let refused = CommandError::BadSelection(word(alloc)?);
    assert!(rt; is_command_told(alloc, refused, "bad selection description: é")?);
    let refused = CommandError::NoSuchRegister(word(alloc)?);
    assert!(rt; is_command_told(alloc, refused, "no such register: é")?);
    let refused = CommandError::NoSuchOption(word(alloc)?);
    assert!(rt; is_command_told(alloc, refused, "no such option: é")?);
    let refused = CommandError::NoSuchScope(word(alloc)?);
    assert!(rt; is_command_told(alloc, refused, "no such scope: é")?);
    let refused = CommandError::OptionExists(word(alloc)?);
    assert!(rt; is_command_told(alloc, refused, "option exists: é")?);
    let refused = CommandError::NoSuchBuffer(word(alloc)?);
    assert!(rt; is_command_told(alloc, refused, "no such buffer: é")?);
    let refused = CommandError::FileFault(word(alloc)?);
    assert!(rt; is_command_told(alloc, refused, "file fault: é")?);
    let refused = CommandError::Failed(word(alloc)?);
    assert!(rt; is_command_told(alloc, refused, "é")?);
    Ok(())
}
