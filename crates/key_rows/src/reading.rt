//! What registers give to a client, and what it has them keep.
#![tactic(auto, using(kak_world::proofs::WorldLaws::world_laws))]

ghost use Rattle.std.specs.Prelude.{◌≡◌, true, false, string_bytes, encode_utf8_all, option_map, IfOk, IfErr, OnOk, IsErrOf};
ghost use Rattle.text_model.specs.Texts.{IsStored};
ghost use Rattle.buffer_store.specs.Buffers.{flat_splices, AreSplicesOf};
ghost use Rattle.kak_registers.specs.Names.{is_settable};
ghost use Rattle.kak_world.specs.declared.ask.EditError.TheVariants.{NoMemory};
ghost use Rattle.kak_world.specs.Flat.{acts, name_of, sels_of, text_of};
ghost use Rattle.kak_world.specs.Registers.{with_register, set_row};
ghost use Rattle.kak_world.specs.Rows.{Answers};
ghost use Rattle.key_rows.specs.Reading.{used, own_strings, numbers_from, strings_read, joined_text};
ghost use Rattle.key_rows.specs.Edits.{puts_of, keep_row};
ghost use Rattle.key_rows.specs.Wanting.{kept_in, IsPartOfKeep};
ghost use Rattle.key_rows.specs.Handing.{ArePuts, IsTooMuch, AreStringsRefused};

use buffer_store::Splice;
use byte_texts::Words;
use compact_chars::CharsRef;
use edit_ops::{Put, PutError, put, strings};
use kak_text::Chars;
use kak_world::{EditError, Turn, World};
use line_buffer::Lines;
use regex_ports::Pattern;
use std::alloc::{AllocError, Global};

/// The register that a key uses: the one that was chosen for it, or `"`.
pub(crate) fn used(chosen: Option<char>) -> char
    ensures { result ≡ used chosen }
{
    chosen.unwrap_or('"')
}

// Sets a register to the texts of a client's selections, which no hook hears yet. An error leaves the world.
fn store<P: Pattern, T: Turn>(
    alloc: Global,
    world: &mut World<P, T>,
    who: u32,
    name: char,
) -> Result<(), EditError>
    requires { acts who world.old.flat ≡ true }
    ensures row { Answers result world.new.flat (set_row name (own_strings who world.old.flat) world.old.flat) }
    ensures sets { OnOk result (world.new.flat ≡ with_register name (own_strings who world.old.flat) world.old.flat) }
    ensures wanting { IsErrOf result NoMemory → world.new.flat ≡ world.old.flat }
    ensures acts { OnOk result (acts who world.new.flat ≡ true) }
{
    let texts = strings(alloc, world.lines(who), world.sels(who))?;
    world.set_register(name, texts)
}

/// Sets a register, or `"` where none was chosen, to the texts of a client's selections, which hooks hear. It is refused where the
/// register can't be set, by the name for that, and leaves the world.
pub fn keep<P: Pattern, T: Turn>(
    alloc: Global,
    world: &mut World<P, T>,
    who: u32,
    register: Option<char>,
) -> Result<(), EditError>
    requires { acts who world.old.flat ≡ true }
    ensures row { Answers result world.new.flat (keep_row register who world.old.flat) }
    ensures sets { OnOk result (world.new.flat ≡ kept_in register who world.old.flat) }
    ensures wanting { IsErrOf result NoMemory → IsPartOfKeep register who world.old.flat world.new.flat }
{
    let name = used(register);
    store(alloc, world, who, name)?;
    world.note_register(alloc, who, name)?;
    Ok(())
}

/// Characters as a string.
pub fn string_of(alloc: Global, chars: &[char]) -> Result<String, AllocError>
    ensures { IfOk result (λ text. string_bytes text ≡ encode_utf8_all chars.now) }
{
    let mut text = String::new(alloc);
    CharsRef::Wide(chars).push_utf8(&mut text)?;
    Ok(text)
}

// The numbers from one up to how many there are.
fn numbers(alloc: Global, count: usize) -> Result<Words, AllocError>
    ensures { IfOk result (λ words. words ≡ numbers_from 1 count) }
{
    let mut words = Words::new(alloc);
    for n in 0..count {
        let number = n as u64 + 1;
        words.push(format!(in alloc; "{number}")?)?;
    }
    Ok(words)
}

// The strings of a register that is only read; none where there is no such one.
#[tactic(auto, using(kak_world::proofs::WorldLaws::world_laws), unfolding(crate::specs::Reading::strings_read))]
fn read_only<P: Pattern, T: Turn>(
    alloc: Global,
    world: &World<P, T>,
    who: u32,
    name: char,
) -> Result<Option<Words>, AllocError>
    requires acts { acts who world.now.flat ≡ true }
    requires other { is_settable name ≡ false }
    ensures { IfOk result (λ words. words ≡ strings_read name who world.now.flat) }
{
    match name {
        '.' => Ok(Some(strings(alloc, world.lines(who), world.sels(who))?)),
        '#' => Ok(Some(numbers(alloc, world.sels(who).len())?)),
        '%' => {
            let mut words = Words::new(alloc);
            words.push(string_of(alloc, world.buffer_name(who))?)?;
            Ok(Some(words))
        }
        _ => Ok(None),
    }
}

// The text can be kept.
pub(crate) fn is_stored(lines: &Lines)
    ensures { IsStored lines.now }
{
    let _count = lines.len();
}

// The replacements that put strings at the selections of a client.
fn strings_put<P: Pattern, T: Turn>(
    alloc: Global,
    world: &World<P, T>,
    who: u32,
    strings: &Words,
    how: Put,
) -> Result<Vec<Splice>, EditError>
    requires { acts who world.now.flat ≡ true }
    ensures puts { IfOk result (λ splices. flat_splices (text_of who world.now.flat) splices.items ≡ puts_of how strings.now who world.now.flat) }
    ensures places { IfOk result (λ splices. AreSplicesOf (text_of who world.now.flat) splices.items) }
    ensures refused { IfErr result (λ error. IsTooMuch error (puts_of how strings.now who world.now.flat) who world.now.flat) }
{
    let lines = world.lines(who);
    match put(alloc, lines, world.sels(who), strings, how) {
        Ok(splices) => Ok(splices),
        Err(PutError::TooLong) => {
            is_stored(lines);
            Err(world.long_refusal(who))
        }
        Err(PutError::NoMemory) => Err(EditError::NoMemory),
    }
}

/// The replacements that put the strings of a register at the selections of a client. `NoSuchRegister` comes where there is no
/// such register, and where they would put in more than a text may have, `UndoFull` or `TextFull`, by which an edit that is too
/// long is refused.
pub fn register_puts<P: Pattern, T: Turn>(
    alloc: Global,
    world: &World<P, T>,
    who: u32,
    name: char,
    how: Put,
) -> Result<Vec<Splice>, EditError>
    requires { acts who world.now.flat ≡ true }
    ensures puts { IfOk result (λ splices. ArePuts how name who world.now.flat splices.items) }
    ensures refused { IfErr result (λ error. AreStringsRefused error how name who world.now.flat) }
{
    if let Some(words) = world.registers().get(name) {
        return strings_put(alloc, world, who, words, how);
    }
    match read_only(alloc, world, who, name)? {
        None => Err(EditError::NoSuchRegister(name)),
        Some(words) => strings_put(alloc, world, who, &words, how),
    }
}

/// Strings as one text, joined by spaces.
pub fn joined_text(alloc: Global, strings: &Words) -> Result<Chars, AllocError>
    ensures { IfOk result (λ text. text ≡ joined_text strings.now) }
{
    if strings.len() == 0 {
        return Ok(Chars::new(alloc));
    }
    let mut text = Chars::from_str(alloc, strings.get(0))?;
    for n in 1..strings.len() {
        let string = Chars::from_str(alloc, strings.get(n))?;
        text.push(' ')?;
        text.extend_from_slice(string.as_slice())?;
    }
    Ok(text)
}

/// The strings that a register gives a client, or None where there is no such register. It costs the characters of these.
pub fn register_strings<P: Pattern, T: Turn>(
    alloc: Global,
    world: &World<P, T>,
    who: u32,
    name: char,
) -> Result<Option<Words>, AllocError>
    requires { acts who world.now.flat ≡ true }
    ensures { IfOk result (λ words. words ≡ strings_read name who world.now.flat) }
{
    if let Some(words) = world.registers().get(name) {
        return Ok(Some(words.copy(alloc)?));
    }
    read_only(alloc, world, who, name)
}

/// What a register gives a client as one text, its strings joined by spaces, or None where there is no such register. It costs
/// the characters of these strings.
pub fn register_text<P: Pattern, T: Turn>(
    alloc: Global,
    world: &World<P, T>,
    who: u32,
    name: char,
) -> Result<Option<Chars>, AllocError>
    requires { acts who world.now.flat ≡ true }
    ensures { IfOk result (λ text. text ≡ option_map joined_text (strings_read name who world.now.flat)) }
{
    if let Some(words) = world.registers().get(name) {
        return Ok(Some(joined_text(alloc, words)?));
    }
    match read_only(alloc, world, who, name)? {
        None => Ok(None),
        Some(words) => Ok(Some(joined_text(alloc, &words)?)),
    }
}
