//! What the outside is asked for in a step, and how its answers are kept.
#![tactic(auto)]

ghost use Rattle.std.specs.Prelude.{◌≡◌, encode_utf8_all, IfOk, OnErr};
ghost use Rattle.regex_ports.specs.Making.{IfBuilt};
ghost use Rattle.command_set.specs.Files.{saved_bytes};
ghost use Rattle.kak_engine.specs.Answering.{made_told, read_told, put_told};
ghost use Rattle.kak_engine.specs.Honesty.{MakesPattern, WritesFile};

use crate::outside::Outside;
use command_set::bytes_saved;
use kak_files::FileRead;
use kak_ports::Put;
use kak_world::{Saving, Turn, World};
use key_rows::string_of;
use regex_ports::{Made, Pattern};
use session_events::Answered;
use std::alloc::{AllocError, Global};

// What a maker of patterns answered, as a history has it.
pub(crate) fn made_told<P: Pattern>(made: &Made<P>) -> Answered
    ensures { result ≡ made_told made.now }
{
    match made {
        Made::Built(_) => Answered::Built,
        Made::Refused => Answered::Refused,
    }
}

// What was answered about a file that was read, as a history has it.
pub(crate) fn read_told(read: FileRead) -> Answered
    ensures { result ≡ read_told read }
{
    match read {
        FileRead::Bytes(bytes) => Answered::Read(bytes),
        FileRead::NotThere => Answered::NotThere,
        FileRead::TooBig => Answered::TooBig,
        FileRead::Failed => Answered::ReadFailed,
    }
}

// What was answered about a file that was written, as a history has it.
pub(crate) fn put_told(put: Put) -> Answered
    ensures { result ≡ put_told put }
{
    match put {
        Put::Done => Answered::Wrote,
        Put::Failed => Answered::WriteFailed,
    }
}

// Has the pattern of a text made.
pub(crate) fn make<O: Outside>(
    alloc: Global,
    outside: &mut O,
    pattern: &[char],
) -> Result<Made<O::P>, AllocError>
    ensures built { IfOk result (λ made. IfBuilt made (λ p. O.P.source p ≡ encode_utf8_all pattern.now)) }
    ensures honest { IfOk result (λ made. MakesPattern made (encode_utf8_all pattern.now) (O.seen outside.old) (O.seen outside.new)) }
    ensures err { OnErr result (O.seen outside.new ≡ O.seen outside.old) }
{
    let text = string_of(alloc, pattern)?;
    outside.make(alloc, text.as_str())
}

// Has a buffer's text written to its file.
pub(crate) fn write<O: Outside, T: Turn>(
    alloc: Global,
    world: &World<O::P, T>,
    outside: &mut O,
    saving: &Saving,
) -> Result<Put, AllocError>
    ensures honest { IfOk result (λ put. WritesFile put saving.now.file (saved_bytes saving.now world.now.flat) (O.seen outside.old) (O.seen outside.new)) }
    ensures err { OnErr result (O.seen outside.new ≡ O.seen outside.old) }
{
    let bytes = bytes_saved(alloc, world, saving)?;
    Ok(outside.write(saving.file.as_str(), bytes.as_slice()))
}
