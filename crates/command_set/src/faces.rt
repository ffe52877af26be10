//! What commands do to faces.
#![tactic(auto, using(kak_world::proofs::WorldLaws::world_laws))]

ghost use Rattle.std.specs.Prelude.{◌≡◌, IsErrOf};
ghost use Rattle.kak_world.specs.declared.ask.EditError.TheVariants.{NoMemory};
ghost use Rattle.face_texts.specs.Tables.{face_set_in, word_text};
ghost use Rattle.kak_world.specs.Flat.{faces_of};
ghost use Rattle.kak_world.specs.Rows.{Answers};
ghost use Rattle.command_set.specs.Faces.{face_refusal, faces_row, face_read_row, set_face_row, unset_face_row};

use byte_texts::Utf8Text;
use command_forms::{FaceName, FaceSetting};
use face_texts::{FaceError, FaceText};
use kak_world::{CommandError, EditError, Turn, World};
use regex_ports::Pattern;
use std::alloc::Global;

// By what a client is told why a word is no face, or a face isn't set.
pub(crate) fn face_refusal(error: FaceError) -> EditError
    ensures { result ≡ face_refusal error }
{
    match error {
        FaceError::BadFace(at) => EditError::Command(CommandError::BadFace(at)),
        FaceError::Cycle(name) => EditError::Command(CommandError::FaceCycle(name)),
        FaceError::NoMemory => EditError::NoMemory,
    }
}

// Sets a name to a text.
fn set_text<P: Pattern, T: Turn>(
    alloc: Global,
    world: &mut World<P, T>,
    name: Utf8Text,
    text: FaceText,
) -> Result<(), EditError>
    ensures row { Answers result world.new.flat (faces_row (face_set_in name text (faces_of world.old.flat)) world.old.flat) }
    ensures wanting { IsErrOf result NoMemory → world.new.flat ≡ world.old.flat }
{
    match world.set_face(alloc, name.as_str(), text) {
        Ok(()) => Ok(()),
        Err(error) => Err(face_refusal(error)),
    }
}

// Sets a name to the face of a word.
fn set_word<P: Pattern, T: Turn>(
    alloc: Global,
    world: &mut World<P, T>,
    name: Utf8Text,
    word: &str,
) -> Result<(), EditError>
    ensures row { Answers result world.new.flat (face_read_row name (word_text (faces_of world.old.flat) word.now) world.old.flat) }
    ensures wanting { IsErrOf result NoMemory → world.new.flat ≡ world.old.flat }
{
    match world.faces().read_word(alloc, word) {
        Ok(text) => set_text(alloc, world, name, text),
        Err(error) => Err(face_refusal(error)),
    }
}

/// Sets a face. `NoSuchScope`, `BadFace`, `FaceCycle` and want of memory leave the world.
pub(crate) fn set<P: Pattern, T: Turn>(
    alloc: Global,
    world: &mut World<P, T>,
    setting: FaceSetting,
) -> Result<(), EditError>
    ensures row { Answers result world.new.flat (set_face_row setting.scope setting.name setting.face world.old.flat) }
    ensures wanting { IsErrOf result NoMemory → world.new.flat ≡ world.old.flat }
{
    let FaceSetting { scope, name, face } = setting;
    if scope.as_str() != "global" {
        return Err(EditError::Command(CommandError::NoSuchScope(scope)));
    }
    set_word(alloc, world, name, face.as_str())
}

/// A face isn't set any more. `NoSuchScope` and `NoSuchFace` leave the world.
pub(crate) fn unset<P: Pattern, T: Turn>(
    world: &mut World<P, T>,
    face: FaceName,
) -> Result<(), EditError>
    ensures row { Answers result world.new.flat (unset_face_row face.scope face.name world.old.flat) }
    ensures wanting { IsErrOf result NoMemory → world.new.flat ≡ world.old.flat }
{
    let FaceName { scope, name } = face;
    if scope.as_str() != "global" {
        return Err(EditError::Command(CommandError::NoSuchScope(scope)));
    }
    if !world.faces().is_set(name.as_str()) {
        return Err(EditError::Command(CommandError::NoSuchFace(name)));
    }
    world.unset_face(name.as_str());
    Ok(())
}
