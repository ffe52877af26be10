//! What commands make of the files that they asked for.
#![tactic(auto, using(kak_world::proofs::WorldLaws::world_laws))]

ghost use Rattle.std.specs.Prelude.{◌≡◌, ◌∷◌, [], true, false, slice_index_or, IfOk, OnOk, OnErr, None};
ghost use Rattle.scope_options.specs.Settings.{seen_from};
ghost use Rattle.std.specs.Str.{chars};
ghost use Rattle.scope_options.specs.declared.scope.Scope.TheVariants.{Buffer as InBuffer};
ghost use Rattle.kak_world.specs.Flat.{acts, options_of};
ghost use Rattle.kak_world.specs.Rows.{GivesRow};
ghost use Rattle.kak_world.specs.Events.{WantsEvents};
ghost use Rattle.kak_world.specs.Saving.{is_named};
ghost use Rattle.kak_world.specs.Showing.{first_gap, has_all_buffers, buffer_opened};
ghost use Rattle.command_set.specs.Files.{set_to, eol_word, bom_word, formatted, made_noted, loaded_noted, load_row, empty_row, coding_refusal, loaded_row, row_read, is_text, is_seen_as, eol_of, bom_of, saved_bytes, marked_if_own, behind_write, row_saved};
ghost use Rattle.command_set.specs.Wanting.{IsPartOfFormat, IsPartOfLoad, IsPartOfEmpty, IsPartOfLoaded, IsPartOfRead, IsPartOfSaved};
ghost use Rattle.text_coding.specs.Coding.{loaded};

use byte_texts::{Utf8Text, Words};
use kak_files::FileRead;
use kak_ports::Put;
use kak_text::{Chars, Text};
use kak_world::{Ask, CommandError, EditError, Later, Saving, Turn, World, WorldError};
use line_buffer::Lines;
use regex_ports::Pattern;
use scope_options::{OptionError, OptionValue, Scope};
use scope_tables::HookName;
use std::alloc::{AllocError, Global};
use text_coding::{Bom, DecodeError, Eol, Loaded, decode, encode};

// The word of an option that says how lines end.
fn eol_word(eol: Eol) -> &'static str
    ensures { result.now ≡ eol_word eol }
{
    match eol {
        Eol::Lf => "lf",
        Eol::Crlf => "crlf",
    }
}

// The word of an option that says whether a mark of the byte order stands first.
fn bom_word(bom: Bom) -> &'static str
    ensures { result.now ≡ bom_word bom }
{
    match bom {
        Bom::No => "none",
        Bom::Utf8 => "utf8",
    }
}

// Sets an option in a buffer to a word, where the option takes it.
fn set_in_buffer<P: Pattern, T: Turn>(
    alloc: Global,
    world: &mut World<P, T>,
    n: u32,
    name: &str,
    word: &str,
) -> Result<(), AllocError>
    ensures ok { OnOk result (world.new.flat ≡ set_to (InBuffer n) name.now word.now world.old.flat) }
    ensures err { OnErr result (world.new.flat ≡ world.old.flat) }
{
    let mut words = Words::new(alloc);
    words.push(String::from_str(alloc, word)?)?;
    match world.set_option(alloc, Scope::Buffer(n), name, &words, false) {
        Ok(()) => Ok(()),
        Err(OptionError::NoMemory) => Err(AllocError),
        Err(_) => Ok(()),
    }
}

// Sets the form that a file had in the buffer of a number.
fn set_format<P: Pattern, T: Turn>(
    alloc: Global,
    world: &mut World<P, T>,
    n: u32,
    eol: Eol,
    bom: Bom,
) -> Result<(), AllocError>
    ensures ok { OnOk result (world.new.flat ≡ formatted n eol bom world.old.flat) }
    ensures err { OnErr result (IsPartOfFormat n eol world.old.flat world.new.flat) }
{
    set_in_buffer(alloc, world, n, "eolformat", eol_word(eol))?;
    set_in_buffer(alloc, world, n, "BOM", bom_word(bom))?;
    Ok(())
}

// Opens a buffer for a file, where one more can be opened.
fn open<P: Pattern, T: Turn>(
    alloc: Global,
    world: &mut World<P, T>,
    name: &str,
    lines: Lines,
) -> Result<u32, AllocError>
    requires { has_all_buffers world.old.flat ≡ false }
    ensures number { IfOk result (λ n. n ≡ first_gap world.old.flat.buffers) }
    ensures ok { OnOk result (world.new.flat ≡ buffer_opened (chars name.now) true lines world.old.flat) }
    ensures err { OnErr result (world.new.flat ≡ world.old.flat) }
{
    let name = Chars::from_str(alloc, name)?;
    match world.open(alloc, name, true, lines) {
        Ok(n) => Ok(n),
        Err(WorldError::NoMemory) => Err(AllocError),
        Err(WorldError::TooManyBuffers) => unreachable!(),
    }
}

// Has hooks hear of a buffer that was made and is shown to a client. An `Err` leaves all but events, and comes
// only where a hook is held.
fn note_made<P: Pattern, T: Turn>(
    alloc: Global,
    world: &mut World<P, T>,
    who: u32,
    name: &str,
    n: u32,
) -> Result<(), AllocError>
    requires { acts who world.old.flat ≡ true }
    ensures notes { OnOk result (world.new.flat ≡ made_noted name.now n who world.old.flat) }
    ensures err { OnErr result (WantsEvents (made_noted name.now n who world.old.flat) world.new.flat) }
{
    world.note(alloc, HookName::BufCreate, name, n)?;
    world.note_displayed(alloc, who)
}

// The same of one that was made of a file.
fn note_loaded<P: Pattern, T: Turn>(
    alloc: Global,
    world: &mut World<P, T>,
    who: u32,
    name: &str,
    n: u32,
) -> Result<(), AllocError>
    requires { acts who world.old.flat ≡ true }
    ensures notes { OnOk result (world.new.flat ≡ loaded_noted name.now n who world.old.flat) }
    ensures err { OnErr result (WantsEvents (loaded_noted name.now n who world.old.flat) world.new.flat) }
{
    world.note(alloc, HookName::BufCreate, name, n)?;
    world.note(alloc, HookName::BufOpenFile, name, n)?;
    world.note_displayed(alloc, who)
}

// Opens a file's text as a buffer, in the form that it had, and shows that to a client, which hooks hear.
fn load<P: Pattern, T: Turn>(
    alloc: Global,
    world: &mut World<P, T>,
    who: u32,
    name: &str,
    loaded: Loaded,
) -> Result<Ask, EditError>
    requires { acts who world.old.flat ≡ true }
    ensures row { GivesRow result world.new.flat (load_row name.now loaded who world.old.flat) }
    ensures err { OnErr result (IsPartOfLoad name.now loaded who world.old.flat world.new.flat) }
{
    if world.has_all_buffers() {
        return Err(EditError::Command(CommandError::TooManyBuffers));
    }
    let Loaded { text, eol, bom } = loaded;
    let n = open(alloc, world, name, text)?;
    set_format(alloc, world, n, eol, bom)?;
    world.show(alloc, who, n)?;
    note_loaded(alloc, world, who, name, n)?;
    Ok(Ask::Nothing)
}

// Opens an empty buffer for a file that isn't there, and shows that to a client, which hooks hear.
fn open_empty<P: Pattern, T: Turn>(
    alloc: Global,
    world: &mut World<P, T>,
    who: u32,
    name: &str,
) -> Result<Ask, EditError>
    requires { acts who world.old.flat ≡ true }
    ensures row { GivesRow result world.new.flat (empty_row name.now who world.old.flat) }
    ensures err { OnErr result (IsPartOfEmpty name.now who world.old.flat world.new.flat) }
{
    if world.has_all_buffers() {
        return Err(EditError::Command(CommandError::TooManyBuffers));
    }
    let text = Text::newline(alloc)?;
    let n = open(alloc, world, name, Lines::of_text(alloc, &text)?)?;
    world.show(alloc, who, n)?;
    note_made(alloc, world, who, name, n)?;
    Ok(Ask::Nothing)
}

// By what a client is told why bytes are no text.
fn coding_refusal(error: DecodeError) -> EditError
    ensures { result ≡ coding_refusal error }
{
    match error {
        DecodeError::NotUtf8(at) => EditError::Command(CommandError::NotUtf8(at)),
        DecodeError::TextFull => EditError::TextFull,
        DecodeError::NoMemory => EditError::NoMemory,
    }
}

// Opens the text of a file's bytes.
fn open_bytes<P: Pattern, T: Turn>(
    alloc: Global,
    world: &mut World<P, T>,
    who: u32,
    name: &str,
    bytes: &[u8],
) -> Result<Ask, EditError>
    requires { acts who world.old.flat ≡ true }
    ensures row { GivesRow result world.new.flat (loaded_row (loaded bytes.now) name.now who world.old.flat) }
    ensures err { OnErr result (IsPartOfLoaded (loaded bytes.now) name.now who world.old.flat world.new.flat) }
{
    match decode(alloc, bytes) {
        Ok(loaded) => load(alloc, world, who, name, loaded),
        Err(error) => Err(coding_refusal(error)),
    }
}

/// Goes on with a file that was to be read: its text is opened as a buffer and shown to the client. `FileFault` comes where the
/// read failed, `NotUtf8` and `TextFull` where the bytes are no text, and `TooManyBuffers` where no more can be opened;
/// they leave the world. Behind want of memory the buffer may be opened, and shown to nobody or to the client.
#[tactic(auto, unfolding(crate::specs::Files::row_read))]
pub fn open_read<P: Pattern, T: Turn>(
    alloc: Global,
    world: &mut World<P, T>,
    who: u32,
    name: Utf8Text,
    read: &FileRead,
) -> Result<Ask, EditError>
    requires { acts who world.old.flat ≡ true }
    ensures row { GivesRow result world.new.flat (row_read name read.now who world.old.flat) }
    ensures err { OnErr result (IsPartOfRead name read.now who world.old.flat world.new.flat) }
{
    match read {
        FileRead::Bytes(bytes) => open_bytes(alloc, world, who, name.as_str(), bytes.as_slice()),
        FileRead::NotThere => open_empty(alloc, world, who, name.as_str()),
        FileRead::TooBig => Err(EditError::TextFull),
        FileRead::Failed => Err(EditError::Command(CommandError::FileFault(name))),
    }
}

// Whether an option's value is a text.
fn is_text(value: &OptionValue, text: &str) -> bool
    ensures { result ≡ is_text text.now value.now }
{
    match value {
        OptionValue::Str(found) => found.as_str() == text,
        _ => false,
    }
}

// Whether an option is seen to be a text from a buffer outward.
fn is_seen_as<P: Pattern, T: Turn>(world: &World<P, T>, n: u32, name: &str, text: &str) -> bool
    ensures { result ≡ is_seen_as text.now (seen_from (InBuffer n) name.now (options_of world.now.flat)) }
{
    match world.options().seen(Scope::Buffer(n), name) {
        None => false,
        Some(value) => is_text(value, text),
    }
}

// How the lines of a buffer's text end where it is written.
fn eol_of<P: Pattern, T: Turn>(world: &World<P, T>, n: u32) -> Eol
    ensures { result ≡ eol_of n world.now.flat }
{
    if is_seen_as(world, n, "eolformat", "crlf") {
        return Eol::Crlf;
    }
    Eol::Lf
}

// Whether a mark of the byte order stands first where a buffer's text is written.
fn bom_of<P: Pattern, T: Turn>(world: &World<P, T>, n: u32) -> Bom
    ensures { result ≡ bom_of n world.now.flat }
{
    if is_seen_as(world, n, "BOM", "utf8") {
        return Bom::Utf8;
    }
    Bom::No
}

/// The bytes that are to be written to a file, in the form that the buffer's options say.
#[tactic(auto, unfolding(crate::specs::Files::saved_bytes))]
pub fn bytes_saved<P: Pattern, T: Turn>(
    alloc: Global,
    world: &World<P, T>,
    saving: &Saving,
) -> Result<Vec<u8>, AllocError>
    ensures { IfOk result (λ bytes. bytes.items ≡ saved_bytes saving.now world.now.flat) }
{
    let n = saving.buffer;
    match world.buffer(n) {
        None => Ok(Vec::new(alloc)),
        Some(buffer) => encode(alloc, buffer.lines(), eol_of(world, n), bom_of(world, n)),
    }
}

// Whether a file has the name of the buffer whose text was written to it.
fn is_own<P: Pattern, T: Turn>(
    alloc: Global,
    world: &World<P, T>,
    saving: &Saving,
) -> Result<bool, AllocError>
    ensures { IfOk result (λ is. is ≡ is_named (chars saving.now.file) (slice_index_or world.now.flat.buffers saving.now.buffer None)) }
{
    let name = Chars::from_str(alloc, saving.file.as_str())?;
    match world.buffer(saving.buffer) {
        None => Ok(false),
        Some(buffer) => Ok(buffer.name() == name.as_slice()),
    }
}

// Marks a buffer as saved whose text was written to the file of its own name.
fn mark_if_own<P: Pattern, T: Turn>(
    alloc: Global,
    world: &mut World<P, T>,
    saving: &Saving,
) -> Result<(), AllocError>
    ensures ok { OnOk result (world.new.flat ≡ marked_if_own saving.now world.old.flat) }
    ensures err { OnErr result (world.new.flat ≡ world.old.flat) }
{
    if is_own(alloc, world, saving)? {
        world.mark_saved(saving.buffer);
    }
    Ok(())
}

/// Goes on with a file that was to be written: where it went to the buffer's own name, the text counts as saved; hooks hear that it
/// was written, and then the client may be to leave. `FileFault` comes where the write failed, and leaves the world. Behind want of
/// memory the text may count as saved, too.
#[tactic(auto, unfolding(crate::specs::Files::row_saved))]
pub fn note_saved<P: Pattern, T: Turn>(
    alloc: Global,
    world: &mut World<P, T>,
    who: u32,
    saving: Saving,
    put: Put,
) -> Result<Ask, EditError>
    ensures row { GivesRow result world.new.flat (row_saved saving put who world.old.flat) }
    ensures err { OnErr result (IsPartOfSaved saving put who world.old.flat world.new.flat) }
{
    match put {
        Put::Failed => Err(EditError::Command(CommandError::FileFault(saving.file))),
        Put::Done => {
            mark_if_own(alloc, world, &saving)?;
            let file = saving.file.as_str();
            world.note(alloc, HookName::BufWritePost, file, saving.buffer)?;
            if saving.quits {
                return Ok(Ask::Then(Later::Quit));
            }
            Ok(Ask::Nothing)
        }
    }
}
