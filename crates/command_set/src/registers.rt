//! What commands do to registers, and what they say.
#![tactic(auto, using(kak_world::proofs::WorldLaws::world_laws))]

ghost use Rattle.std.specs.Prelude.{◌≡◌, true, IsErrOf};
ghost use Rattle.kak_world.specs.declared.ask.EditError.TheVariants.{NoMemory};
ghost use Rattle.kak_world.specs.Flat.{acts};
ghost use Rattle.kak_world.specs.Events.{register_modified, IsUnheard};
ghost use Rattle.kak_world.specs.Registers.{set_row};
ghost use Rattle.key_rows.specs.Sequence.{then_row};
ghost use Rattle.kak_world.specs.Rows.{Answers, does};
ghost use Rattle.command_set.specs.Registers.{register_row, is_refusal, told_text, echo_row, failing};

use byte_texts::{Utf8Text, Words};
use command_forms::RegisterValues;
use kak_registers::register_named;
use kak_text::Chars;
use kak_world::{CommandError, EditError, StatusText, Turn, World};
use key_rows::joined_text;
use regex_ports::Pattern;
use std::alloc::Global;

// Sets a register, which hooks hear.
fn set_named<P: Pattern, T: Turn>(
    alloc: Global,
    world: &mut World<P, T>,
    who: u32,
    name: char,
    values: Words,
) -> Result<(), EditError>
    requires { acts who world.old.flat ≡ true }
    ensures row { Answers result world.new.flat (then_row (set_row name values world.old.flat) (λ w. does (register_modified name who w))) }
    ensures wanting { IsErrOf result NoMemory → IsUnheard (then_row (set_row name values world.old.flat) (λ w. does (register_modified name who w))) world.old.flat world.new.flat }
{
    world.set_register(name, values)?;
    world.note_register(alloc, who, name)?;
    Ok(())
}

/// Sets a register. `NoSuchRegister`, `ReadOnlyRegister` and `RegisterFull` leave the world; behind want of memory it may be set.
pub(crate) fn set<P: Pattern, T: Turn>(
    alloc: Global,
    world: &mut World<P, T>,
    who: u32,
    register: RegisterValues,
) -> Result<(), EditError>
    requires { acts who world.old.flat ≡ true }
    ensures row { Answers result world.new.flat (register_row register.name register.values who world.old.flat) }
    ensures wanting { IsErrOf result NoMemory → IsUnheard (register_row register.name register.values who world.old.flat) world.old.flat world.new.flat }
{
    let RegisterValues { name, values } = register;
    match register_named(name.as_str()) {
        None => Err(EditError::Command(CommandError::NoSuchRegister(name))),
        Some(c) => set_named(alloc, world, who, c, values),
    }
}

// Whether a status tells why something was refused.
fn is_refusal(status: &StatusText) -> bool
    ensures { result ≡ is_refusal status.now }
{
    matches!(status, StatusText::Refused(_))
}

// Says a text to a client, unless an error of the step was told already.
fn say<P: Pattern, T: Turn>(world: &mut World<P, T>, who: u32, text: Chars)
    requires { acts who world.old.flat ≡ true }
    ensures { world.new.flat ≡ told_text text who world.old.flat }
{
    let own = world.own(who);
    if is_refusal(&own.status) {
        return;
    }
    world.own_mut(who).status = StatusText::Said(text);
}

/// Says words to a client, with a space between each two. Want of memory leaves the world.
pub(crate) fn echo<P: Pattern, T: Turn>(
    alloc: Global,
    world: &mut World<P, T>,
    who: u32,
    words: &Words,
) -> Result<(), EditError>
    requires { acts who world.old.flat ≡ true }
    ensures row { Answers result world.new.flat (echo_row words.now who world.old.flat) }
    ensures wanting { IsErrOf result NoMemory → world.new.flat ≡ world.old.flat }
{
    let text = joined_text(alloc, words)?;
    say(world, who, text);
    Ok(())
}

/// Fails with a text, or with the empty one.
pub(crate) fn fail(alloc: Global, text: Option<Utf8Text>) -> EditError
    ensures { result ≡ failing text }
{
    match text {
        Some(text) => EditError::Command(CommandError::Failed(text)),
        None => EditError::Command(CommandError::Failed(Utf8Text::of_string(String::new(alloc)))),
    }
}
