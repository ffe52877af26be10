//! What a command has a client shown in a box.
#![tactic(auto, using(kak_world::proofs::WorldLaws::world_laws))]

ghost use Rattle.std.specs.Prelude.{◌≡◌, true, IfOk, IsErrOf};
ghost use Rattle.kak_world.specs.declared.ask.EditError.TheVariants.{NoMemory};
ghost use Rattle.kak_world.specs.Flat.{acts, with_own};
ghost use Rattle.kak_world.specs.Rows.{Answers};
ghost use Rattle.command_set.specs.Boxes.{note_of, info_row};

use byte_texts::Utf8Text;
use command_forms::InfoTexts;
use kak_text::Chars;
use kak_world::{EditError, Note, Turn, World};
use regex_ports::Pattern;
use std::alloc::{AllocError, Global};

// The box of a title and a text, if there is a text.
fn note_of(
    alloc: Global,
    title: &Utf8Text,
    text: &Option<Utf8Text>,
) -> Result<Option<Note>, AllocError>
    ensures { IfOk result (λ note. note ≡ note_of title.now text.now) }
{
    match text {
        None => Ok(None),
        Some(text) => Ok(Some(Note {
            title: Chars::from_str(alloc, title.as_str())?,
            content: Chars::from_str(alloc, text.as_str())?,
        })),
    }
}

// Has a client shown a box, or none.
fn put_note<P: Pattern, T: Turn>(world: &mut World<P, T>, who: u32, note: Option<Note>)
    requires { acts who world.old.flat ≡ true }
    ensures { world.new.flat ≡ with_own who (λ o. record o { info = note }) world.old.flat }
{
    world.own_mut(who).info = note;
}

/// Has a client shown a box, or, without a text, none any more. Want of memory leaves the world.
pub(crate) fn show<P: Pattern, T: Turn>(
    alloc: Global,
    world: &mut World<P, T>,
    who: u32,
    texts: &InfoTexts,
) -> Result<(), EditError>
    requires { acts who world.old.flat ≡ true }
    ensures row { Answers result world.new.flat (info_row texts.now.title texts.now.text who world.old.flat) }
    ensures wanting { IsErrOf result NoMemory → world.new.flat ≡ world.old.flat }
{
    let note = note_of(alloc, &texts.title, &texts.text)?;
    put_note(world, who, note);
    Ok(())
}
