//! Hooks that are run, and what becomes of one that fails.
#![tactic(auto, unfolding(crate::specs::Flat::rest_of, crate::specs::Flat::with_rest, crate::specs::Flat::scoped_of, crate::specs::Flat::with_scoped), using(crate::proofs::WorldLaws::world_laws))]

ghost use Rattle.std.specs.Prelude.{◌≡◌, true, option_map, IfOk};
ghost use Rattle.std.specs.Option.{option_copied};
ghost use Rattle.std.specs.Str.{chars};
ghost use Rattle.kak_world.specs.Flat.{acts};
ghost use Rattle.kak_world.specs.Events.{hooks_heard, hook_text, parameter_of, with_parameter, hook_begun, faults_of, one_more_fault, fault_counted, fault_kept};

use crate::events::{Fault, HookEvent};
use crate::own::StatusText;
use crate::turn::Turn;
use crate::world::World;
use byte_texts::Utf8Text;
use kak_text::Chars;
use regex_ports::Pattern;
use scope_tables::HookRef;
use std::alloc::{AllocError, Global};

impl<P: Pattern, T: Turn> World<P, T> {
    /// The hooks that are run on an event, for a client.
    pub fn hooks_heard(
        &self,
        alloc: Global,
        who: u32,
        event: &HookEvent,
    ) -> Result<Vec<HookRef>, AllocError>
        ensures { IfOk result (λ found. found.items ≡ hooks_heard event.now who self.now.flat) }
    {
        self.tables.hooks_for(
            alloc,
            event.buffer,
            who,
            event.name,
            event.parameter.as_str(),
        )
    }

    /// The text that a hook runs, if it is held still.
    pub fn hook_text(&self, alloc: Global, at: HookRef) -> Result<Option<Chars>, AllocError>
        ensures { IfOk result (λ text. text ≡ hook_text at self.now.flat) }
    {
        match self.tables.hook(at) {
            None => Ok(None),
            Some(hook) => Ok(Some(Chars::from_str(alloc, hook.commands.as_str())?)),
        }
    }

    /// The parameter of the innermost hook that runs, where one does.
    pub fn parameter(&self) -> Option<&Utf8Text>
        ensures { option_copied result ≡ parameter_of self.now.flat }
    {
        self.rest.step.parameter.as_ref()
    }

    /// Has a parameter count, or none, and gives the one that counted before.
    pub fn set_parameter(&mut self, parameter: Option<Utf8Text>) -> Option<Utf8Text>
        ensures former { result ≡ parameter_of self.old.flat }
        ensures sets { self.new.flat ≡ with_parameter parameter self.old.flat }
    {
        std::mem::replace(&mut self.rest.step.parameter, parameter)
    }

    /// A hook begins on an event of this parameter, which counts from then on: one that is run once isn't held any more. Gives the
    /// parameter that counted before.
    pub fn begin_hook(&mut self, at: HookRef, parameter: Utf8Text) -> Option<Utf8Text>
        ensures former { result ≡ parameter_of self.old.flat }
        ensures begins { self.new.flat ≡ hook_begun at parameter self.old.flat }
    {
        self.tables.drop_once(at);
        self.set_parameter(Some(parameter))
    }

    /// How many errors of hooks were told in the step.
    pub fn faults(&self) -> u64
        ensures { result ≡ faults_of self.now.flat }
    {
        self.rest.step.faults
    }

    // One more error of a hook was told.
    fn add_fault(&mut self)
        ensures { self.new.flat ≡ one_more_fault self.old.flat }
    {
        let step = &mut self.rest.step;
        step.faults = step.faults.saturating_add(1);
    }

    // Tells a client of an error of a hook, which counts.
    fn count_fault(&mut self, who: u32, text: Chars)
        requires { acts who self.old.flat ≡ true }
        ensures { self.new.flat ≡ fault_counted who text self.old.flat }
    {
        self.add_fault();
        self.own_mut(who).status = StatusText::Refused(text);
    }

    /// Tells a client of an error, which counts as one of a hook, unless one that arose behind it was told already.
    pub fn keep_fault(&mut self, who: u32, fault: Fault)
        requires { acts who self.old.flat ≡ true }
        ensures { self.new.flat ≡ fault_kept who fault self.old.flat }
    {
        let Fault { at, text } = fault;
        if at < self.faults() {
            return;
        }
        self.count_fault(who, text);
    }
}
