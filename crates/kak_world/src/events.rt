//! Events on which hooks are run, and errors of hooks.

ghost use Rattle.std.specs.Prelude.{◌≡◌, [], ◌∷◌, ◌++◌, length, OnOk, OnErr};

use byte_texts::Utf8Text;
use kak_text::Chars;
use scope_tables::HookName;
use std::alloc::{AllocError, Global};
use std::marker::Model;

/// Something on which hooks are run.
#[derive(Drop, Debug)]
pub struct HookEvent {
    /// Its name, which a hook is to have.
    pub name: HookName,
    /// What a hook's pattern is to match the whole of.
    pub parameter: Utf8Text,
    /// The number of the buffer whose hooks count, with those of the client's window on it, beside the global ones.
    pub buffer: u32,
}

/// An error in a step: its text, and how many errors of hooks had been told when it arose.
#[derive(Drop, Debug)]
pub struct Fault {
    pub at: u64,
    pub text: Chars,
}

/// Events in order. Contracts see the list of them.
#[derive(Drop, Debug)]
pub struct Events {
    items: Vec<HookEvent>,
}

impl Model for Events {
    ghost use Rattle.std.specs.Prelude.{List};
    ghost use Rattle.kak_world.specs.declared.events.HookEvent.{HookEvent as EventSeen};

    ghost Value = { List EventSeen };

    ghost view = { λ e. e.items.items };
}

impl Events {
    /// No events; takes no memory.
    pub fn new(alloc: Global) -> Events
        ensures { result ≡ [] }
    {
        Events {
            items: Vec::new(alloc),
        }
    }

    /// All of them.
    pub fn as_slice(&self) -> &[HookEvent]
        ensures { result.now ≡ self.now }
    {
        self.items.as_slice()
    }

    /// How many there are.
    pub fn len(&self) -> usize
        ensures { result ≡ length self.now }
    {
        self.items.len()
    }

    /// One more comes behind them. An `Err` leaves them.
    pub(crate) fn push(&mut self, event: HookEvent) -> Result<(), AllocError>
        ensures ok { OnOk result (self.new ≡ self.old ++ event ∷ []) }
        ensures err { OnErr result (self.new ≡ self.old) }
    {
        self.items.push(event)?;
        Ok(())
    }

    /// None of them is left, and their memory stays.
    pub(crate) fn clear(&mut self)
        ensures { self.new ≡ [] }
    {
        self.items.clear();
    }
}
