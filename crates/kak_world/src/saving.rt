//! Buffers by their names, and what would be lost of them.

ghost use Rattle.std.specs.Prelude.{◌≡◌, ◌+◌, ◌∷◌, ◌++◌, [], true, IfOk, IfSome, option_map};
ghost use Rattle.kak_world.specs.Flat.{is_there};
ghost use Rattle.kak_world.specs.Seen.{with_seen, slot_seen};
ghost use Rattle.kak_world.specs.Saving.{is_named, number_named, buffer_number_from, marked_as_saved, saved_in, is_unsaved, with_name, unsaved_behind, unsaved_names, others_leave};

use crate::buffer::WorldBuffer;
use crate::turn::Turn;
use crate::world::World;
use kak_text::Chars;
use regex_ports::Pattern;
use std::alloc::{AllocError, Global};

// Whether there is a buffer, of that name.
fn is_named(slot: &Option<WorldBuffer>, name: &[char]) -> bool
    ensures { result ≡ is_named name.now (slot_seen slot.now) }
{
    match slot {
        None => false,
        Some(buffer) => buffer.name() == name,
    }
}

// Marks a buffer as saved, where there is one.
fn mark_saved_in(slot: &mut Option<WorldBuffer>)
    ensures { slot.new ≡ option_map (with_seen marked_as_saved) slot.old }
{
    match slot {
        None => {}
        Some(buffer) => buffer.mark_saved(),
    }
}

// Names with one more behind them, and a space between.
fn with_name(alloc: Global, names: Option<Chars>, name: &[char]) -> Result<Chars, AllocError>
    ensures { IfOk result (λ all. all ≡ with_name name.now names) }
{
    match names {
        None => Chars::from_slice(alloc, name),
        Some(mut names) => {
            names.push(' ')?;
            names.extend_from_slice(name)?;
            Ok(names)
        }
    }
}

// Names, behind which that of a buffer stands where something would be lost of it.
fn with_unsaved(
    alloc: Global,
    names: Option<Chars>,
    slot: &Option<WorldBuffer>,
) -> Result<Option<Chars>, AllocError>
    ensures { IfOk result (λ all. all ≡ unsaved_behind names (slot_seen slot.now ∷ [])) }
{
    let Some(buffer) = slot else {
        return Ok(names);
    };
    if !buffer.is_unsaved() {
        return Ok(names);
    }
    Ok(Some(with_name(alloc, names, buffer.name())?))
}

impl<P: Pattern, T: Turn> World<P, T> {
    /// The least number of a buffer of that name, if there is one.
    pub fn number_named(&self, name: &[char]) -> Option<u32>
        ensures value { result ≡ number_named name.now self.now.flat }
        ensures there { IfSome result (λ n. is_there n self.now.flat.buffers ≡ true) }
    {
        for (n, slot) in self.buffers.iter().enumerate() {
            if is_named(slot, name) {
                return Some(n as u32);
            }
        }
        None
    }

    /// Commits what is pending in a buffer, whoever's it is; its text counts as saved then, and its name is a file's.
    pub fn mark_saved(&mut self, n: u32)
        requires { is_there n self.old.flat.buffers ≡ true }
        ensures { self.new.flat ≡ saved_in n self.old.flat }
    {
        self.may_pend = true;
        mark_saved_in(&mut self.buffers[n as usize]);
    }

    /// The names of the buffers of which something would be lost, in order of number, with a space between them, where
    /// there are any.
    pub fn unsaved_names(&self, alloc: Global) -> Result<Option<Chars>, AllocError>
        ensures { IfOk result (λ names. names ≡ unsaved_names self.now.flat) }
    {
        let mut names = None;
        for slot in &self.buffers {
            names = with_unsaved(alloc, names, slot)?;
        }
        Ok(names)
    }

    /// Whether each other client was granted to leave.
    pub fn others_leave(&self, who: u32) -> bool
        ensures { result ≡ others_leave who self.now.flat }
    {
        self.clients.others_leave(who)
    }
}
