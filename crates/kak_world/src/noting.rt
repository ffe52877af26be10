//! What rows do on which hooks are run.

ghost use Rattle.std.specs.Prelude.{◌≡◌, ◌++◌, ◌∷◌, [], true, false, length, codes, decimal, encode_utf8_all, IfOk, IsOk, OnOk, OnErr};
ghost use Rattle.scope_tables.specs.Hooks.{is_awaited};
ghost use Rattle.scope_tables.specs.declared.names.HookName.TheVariants.{ClientCreate, ClientClose};
ghost use Rattle.kak_world.specs.Flat.{is_joined, tables_of};
ghost use Rattle.kak_world.specs.Events.{event_of, due_of, with_due, has_hooks, noted, mode_entered, mode_left, character_typed, register_modified, displayed, client_event, coming_noted, going_noted, LacksEvents};

use crate::events::{Events, HookEvent};
use crate::own::Mode;
use crate::turn::Turn;
use crate::world::World;
use byte_texts::Utf8Text;
use compact_chars::CharsRef;
use regex_ports::Pattern;
use scope_tables::HookName;
use std::alloc::{AllocError, Global};

// Characters as a text.
fn text_of(alloc: Global, chars: &[char]) -> Result<Utf8Text, AllocError>
    ensures { IfOk result (λ text. text ≡ encode_utf8_all chars.now) }
{
    let mut text = String::new(alloc);
    CharsRef::Wide(chars).push_utf8(&mut text)?;
    Ok(Utf8Text::of_string(text))
}

// The name of a client.
fn client_text(alloc: Global, number: u32) -> Result<Utf8Text, AllocError>
    ensures { IfOk result (λ text. text ≡ codes "client" ++ decimal number) }
{
    Ok(Utf8Text::of_string(format!(in alloc; "client{number}")?))
}

#[tactic(auto, unfolding(crate::specs::Flat::rest_of, crate::specs::Flat::with_rest, crate::specs::Flat::scoped_of), using(crate::proofs::WorldLaws::world_laws))]
impl<P: Pattern, T: Turn> World<P, T> {
    /// Whether any hook is held.
    pub fn has_hooks(&self) -> bool
        ensures { result ≡ has_hooks self.now.flat }
    {
        self.tables.has_hooks()
    }

    /// Whether a hook of a name is held, at whatever scope.
    pub fn has_hook(&self, name: HookName) -> bool
        ensures { result ≡ is_awaited name (tables_of self.now.flat).hooks }
    {
        self.tables.has_hook(name)
    }

    /// An event is due, where any hook is held. An `Err` leaves the world, and comes only where one is.
    pub fn add_event(&mut self, event: HookEvent) -> Result<(), AllocError>
        ensures notes { OnOk result (self.new.flat ≡ noted event self.old.flat) }
        ensures err { OnErr result (self.new.flat ≡ self.old.flat) }
        ensures calm { has_hooks self.old.flat ≡ false → IsOk result }
        ensures held { OnErr result (has_hooks self.new.flat ≡ true) }
    {
        if !self.tables.has_hooks() {
            return Ok(());
        }
        self.rest.step.due.push(event)
    }

    /// An event with a parameter is due, where any hook is held. An `Err` leaves the world, and comes only where one is.
    pub fn note(
        &mut self,
        alloc: Global,
        name: HookName,
        parameter: &str,
        buffer: u32,
    ) -> Result<(), AllocError>
        ensures notes { OnOk result (self.new.flat ≡ noted (event_of name parameter.now buffer) self.old.flat) }
        ensures err { OnErr result (self.new.flat ≡ self.old.flat) }
        ensures calm { has_hooks self.old.flat ≡ false → IsOk result }
        ensures held { OnErr result (has_hooks self.new.flat ≡ true) }
    {
        if !self.has_hooks() {
            return Ok(());
        }
        let parameter = Utf8Text::from_str(alloc, parameter)?;
        self.add_event(HookEvent {
            name,
            parameter,
            buffer,
        })
    }

    // The same with one character.
    fn note_character(
        &mut self,
        alloc: Global,
        name: HookName,
        c: char,
        buffer: u32,
    ) -> Result<(), AllocError>
        ensures notes { OnOk result (self.new.flat ≡ noted (event_of name (encode_utf8_all (c ∷ [])) buffer) self.old.flat) }
        ensures err { OnErr result (self.new.flat ≡ self.old.flat) }
        ensures calm { has_hooks self.old.flat ≡ false → IsOk result }
        ensures held { OnErr result (has_hooks self.new.flat ≡ true) }
    {
        if !self.has_hooks() {
            return Ok(());
        }
        let parameter = text_of(alloc, &[c])?;
        self.add_event(HookEvent {
            name,
            parameter,
            buffer,
        })
    }

    /// A client came from normal mode to another one. An `Err` leaves the world, and comes only where a hook is held.
    pub fn note_entered(&mut self, alloc: Global, who: u32, mode: Mode) -> Result<(), AllocError>
        requires { is_joined who self.old.flat ≡ true }
        ensures notes { OnOk result (self.new.flat ≡ mode_entered mode who self.old.flat) }
        ensures err { OnErr result (self.new.flat ≡ self.old.flat) }
        ensures calm { has_hooks self.old.flat ≡ false → IsOk result }
        ensures held { OnErr result (has_hooks self.new.flat ≡ true) }
    {
        let buffer = self.shown_number(who);
        match mode {
            Mode::Normal => Ok(()),
            Mode::Insert => self.note(alloc, HookName::ModeChange, "push:normal:insert", buffer),
            Mode::Prompt => self.note(alloc, HookName::ModeChange, "push:normal:prompt", buffer),
        }
    }

    /// A client came back to normal mode. An `Err` leaves the world, and comes only where a hook is held.
    pub fn note_left(&mut self, alloc: Global, who: u32, mode: Mode) -> Result<(), AllocError>
        requires { is_joined who self.old.flat ≡ true }
        ensures notes { OnOk result (self.new.flat ≡ mode_left mode who self.old.flat) }
        ensures err { OnErr result (self.new.flat ≡ self.old.flat) }
        ensures calm { has_hooks self.old.flat ≡ false → IsOk result }
        ensures held { OnErr result (has_hooks self.new.flat ≡ true) }
    {
        let buffer = self.shown_number(who);
        match mode {
            Mode::Normal => Ok(()),
            Mode::Insert => self.note(alloc, HookName::ModeChange, "pop:insert:normal", buffer),
            Mode::Prompt => self.note(alloc, HookName::ModeChange, "pop:prompt:normal", buffer),
        }
    }

    /// A client typed a character in insert mode. An `Err` leaves the world, and comes only where a hook is held.
    pub fn note_typed(&mut self, alloc: Global, who: u32, c: char) -> Result<(), AllocError>
        requires { is_joined who self.old.flat ≡ true }
        ensures notes { OnOk result (self.new.flat ≡ character_typed c who self.old.flat) }
        ensures err { OnErr result (self.new.flat ≡ self.old.flat) }
        ensures calm { has_hooks self.old.flat ≡ false → IsOk result }
        ensures held { OnErr result (has_hooks self.new.flat ≡ true) }
    {
        let buffer = self.shown_number(who);
        self.note_character(alloc, HookName::InsertChar, c, buffer)
    }

    /// A client had a register set. An `Err` leaves the world, and comes only where a hook is held.
    pub fn note_register(&mut self, alloc: Global, who: u32, name: char) -> Result<(), AllocError>
        requires { is_joined who self.old.flat ≡ true }
        ensures notes { OnOk result (self.new.flat ≡ register_modified name who self.old.flat) }
        ensures err { OnErr result (self.new.flat ≡ self.old.flat) }
        ensures calm { has_hooks self.old.flat ≡ false → IsOk result }
        ensures held { OnErr result (has_hooks self.new.flat ≡ true) }
    {
        let buffer = self.shown_number(who);
        self.note_character(alloc, HookName::RegisterModified, name, buffer)
    }

    /// A client was shown the buffer that it sees. An `Err` leaves the world, and comes only where a hook is held.
    pub fn note_displayed(&mut self, alloc: Global, who: u32) -> Result<(), AllocError>
        requires { is_joined who self.old.flat ≡ true }
        ensures notes { OnOk result (self.new.flat ≡ displayed who self.old.flat) }
        ensures err { OnErr result (self.new.flat ≡ self.old.flat) }
        ensures calm { has_hooks self.old.flat ≡ false → IsOk result }
        ensures held { OnErr result (has_hooks self.new.flat ≡ true) }
    {
        if !self.has_hooks() {
            return Ok(());
        }
        let parameter = text_of(alloc, self.buffer_name(who))?;
        let buffer = self.shown_number(who);
        self.add_event(HookEvent {
            name: HookName::WinDisplay,
            parameter,
            buffer,
        })
    }

    // Something is due that a client did as a whole. An `Err` leaves the world, and comes only where a hook is held.
    fn note_client(&mut self, alloc: Global, name: HookName, who: u32) -> Result<(), AllocError>
        requires { is_joined who self.old.flat ≡ true }
        ensures notes { OnOk result (self.new.flat ≡ noted (client_event name who self.old.flat) self.old.flat) }
        ensures err { OnErr result (self.new.flat ≡ self.old.flat) }
        ensures calm { has_hooks self.old.flat ≡ false → IsOk result }
        ensures held { OnErr result (has_hooks self.new.flat ≡ true) }
    {
        if !self.has_hooks() {
            return Ok(());
        }
        let parameter = client_text(alloc, self.number(who))?;
        let buffer = self.shown_number(who);
        self.add_event(HookEvent {
            name,
            parameter,
            buffer,
        })
    }

    /// A client came, and was shown a buffer by that. An `Err` comes only where a hook is held, and leaves all but events.
    pub fn note_coming(&mut self, alloc: Global, who: u32) -> Result<(), AllocError>
        requires { is_joined who self.old.flat ≡ true }
        ensures notes { OnOk result (self.new.flat ≡ coming_noted who self.old.flat) }
        ensures lacks { OnErr result (LacksEvents (coming_noted who self.old.flat) self.new.flat) }
        ensures calm { has_hooks self.old.flat ≡ false → IsOk result }
        ensures held { OnErr result (has_hooks self.new.flat ≡ true) }
    {
        self.note_displayed(alloc, who)?;
        self.note_client(alloc, HookName::ClientCreate, who)
    }

    /// A client is about to go. An `Err` leaves the world, and comes only where a hook is held.
    pub fn note_going(&mut self, alloc: Global, who: u32) -> Result<(), AllocError>
        requires { is_joined who self.old.flat ≡ true }
        ensures notes { OnOk result (self.new.flat ≡ going_noted who self.old.flat) }
        ensures err { OnErr result (self.new.flat ≡ self.old.flat) }
        ensures calm { has_hooks self.old.flat ≡ false → IsOk result }
        ensures held { OnErr result (has_hooks self.new.flat ≡ true) }
    {
        self.note_client(alloc, HookName::ClientClose, who)
    }

    /// How many events are due.
    pub fn due_count(&self) -> usize
        ensures { result ≡ length (due_of self.now.flat) }
    {
        self.rest.step.due.len()
    }

    /// Takes out all events that are due, so that what is due from then on stands behind none of them. Takes no memory.
    pub fn take_due(&mut self, alloc: Global) -> Events
        ensures taken { result ≡ due_of self.old.flat }
        ensures none { self.new.flat ≡ with_due [] self.old.flat }
    {
        std::mem::replace(&mut self.rest.step.due, Events::new(alloc))
    }
}
