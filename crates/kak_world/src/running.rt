//! What counts for what runs inside a step.

ghost use Rattle.std.specs.Prelude.{◌≡◌, true, IfOk};
ghost use Rattle.std.specs.Option.{option_copied};
ghost use Rattle.scope_tables.specs.Maps.{keys_for};
ghost use Rattle.kak_world.specs.Flat.{is_joined, shown_of, tables_of};
ghost use Rattle.kak_world.specs.Running.{arguments_of, with_arguments, map_mode, keys_mapped};

use crate::own::Mode;
use crate::turn::Turn;
use crate::world::World;
use byte_texts::Words;
use key_names::{Key, Keys};
use regex_ports::Pattern;
use scope_tables::Mode as MapMode;
use std::alloc::{AllocError, Global};

// A mode as the maps of keys name it.
fn map_mode(mode: Mode) -> MapMode
    ensures { result ≡ map_mode mode }
{
    match mode {
        Mode::Normal => MapMode::Normal,
        Mode::Insert => MapMode::Insert,
        Mode::Prompt => MapMode::Prompt,
    }
}

// Keys of their own, where there are some.
fn copied(alloc: Global, keys: Option<&[Key]>) -> Result<Option<Keys>, AllocError>
    ensures { IfOk result (λ copy. copy ≡ option_copied keys.entry) }
{
    let Some(keys) = keys else {
        return Ok(None);
    };
    let mut copy = Vec::new(alloc);
    copy.extend_from_slice(keys)?;
    Ok(Some(Keys::of_vec(copy)))
}

impl<P: Pattern, T: Turn> World<P, T> {
    /// The words that the innermost defined command was given, where one runs.
    #[tactic(auto, unfolding(crate::specs::Flat::rest_of))]
    pub fn arguments(&self) -> Option<&Words>
        ensures { option_copied result ≡ arguments_of self.now.flat }
    {
        self.rest.step.arguments.as_ref()
    }

    /// Has a defined command run with these words, or none run, and gives what stood before.
    #[tactic(auto, unfolding(crate::specs::Flat::rest_of, crate::specs::Flat::with_rest))]
    pub fn set_arguments(&mut self, arguments: Option<Words>) -> Option<Words>
        ensures former { result ≡ arguments_of self.old.flat }
        ensures sets { self.new.flat ≡ with_arguments arguments self.old.flat }
    {
        std::mem::replace(&mut self.rest.step.arguments, arguments)
    }

    // The keys that a key stands for in a mode, if it does, where a client looks.
    #[tactic(auto, unfolding(crate::specs::Flat::scoped_of))]
    fn keys_in(&self, who: u32, mode: Mode, key: Key) -> Option<&[Key]>
        requires { is_joined who self.now.flat ≡ true }
        ensures { option_copied result ≡ keys_for (shown_of who self.now.flat) who (map_mode mode) key (tables_of self.now.flat).maps }
    {
        self.tables
            .mapped(self.shown_number(who), who, map_mode(mode), key)
    }

    /// The keys that a key stands for, if it does, in the mode of a client and where it looks.
    #[tactic(auto, unfolding(crate::specs::Running::keys_mapped))]
    pub fn keys_mapped(&self, alloc: Global, who: u32, key: Key) -> Result<Option<Keys>, AllocError>
        requires { is_joined who self.now.flat ≡ true }
        ensures { IfOk result (λ keys. keys ≡ keys_mapped who key self.now.flat) }
    {
        let mode = self.own(who).mode;
        copied(alloc, self.keys_in(who, mode, key))
    }
}
