//! An engine whose session is over.
#![tactic(auto)]

ghost use Rattle.std.specs.Prelude.{◌≡◌, ◌<◌, IfSome, None, length};
ghost use Rattle.session_events.specs.Legal.{IsLegal};
ghost use Rattle.kak_engine.specs.Honesty.{Outside as Seen, IsKept};
ghost use Rattle.kak_engine.specs.Seating.{WasHonest, IsRescuedIf};
ghost use Rattle.kak_engine.specs.Steps.{exchanges, AllAsked};
ghost use Rattle.engine_desk.specs.Sharing.{WasAskedJustThat, IsRescuedWhereBroken};

use kak_engine::{Engine, Outside};
use session_events::Entry;
use std::alloc::Global;
use std::marker::Model;
use std::snapshot::Snapshot;

/// An engine whose session is over: nobody plays it on. Contracts see what the engine holds, and the outside as it was when it was
/// made. Where it broke, its texts were rescued.
#[derive(Drop)]
pub struct ClosedEngine<O: Outside> {
    engine: Engine<O>,
    first: Snapshot<Engine<O>>,
}

impl<O: Outside> Model for ClosedEngine<O> {
    ghost use Rattle.std.specs.Prelude.{◌≡◌, is_some};
    ghost use Rattle.kak_engine.specs.Seating.{WasClosed};
    ghost use Rattle.engine_desk.specs.Sharing.{Shared};

    ghost Value = { Shared };

    ghost view = { λ s. record { engine = s.engine; first = s.first.value.outside } };

    ghost invariant = { λ s. WasClosed s.engine.history s.engine.mark s.engine.inside s.first.value.outside s.engine.outside × (s.engine.rescued ≡ is_some s.engine.mark) };
}

impl<O: Outside> ClosedEngine<O> {
    /// An engine that is played on by nobody. Where it is broken, its texts are rescued.
    pub(crate) fn of(
        alloc: Global,
        engine: Engine<O>,
        first: Snapshot<Engine<O>>,
    ) -> ClosedEngine<O>
        requires { WasHonest engine first.value.outside }
        ensures rescued { IsRescuedIf engine.mark engine result.engine }
        ensures first { result.first ≡ first.value.outside }
    {
        let mut engine = engine;
        engine.rescue_if_broken(alloc);
        ClosedEngine { engine, first }
    }

    /// The outside. In each entry it answered what it was asked for, it was asked for nothing else, and it was honest in all of
    /// them: what was exchanged with the files led from what they held when the engine was made to what they hold where they
    /// tell it, and their failures and the maker's refusals were counted. What it was asked for where the engine broke, and so
    /// that its texts be rescued, is told beside that.
    pub fn into_outside(self) -> O
        ensures asked { WasAskedJustThat (record { engine = self.engine; first = self.first }) }
        ensures outside { O.seen result ≡ self.engine.outside }
        ensures kept { self.engine.mark ≡ None → IsKept (exchanges self.engine.history) (O.seen result).shelf }
        ensures answered { AllAsked self.engine.history }
    {
        let ClosedEngine { engine, first: _ } = self;
        engine.into_outside()
    }

    /// Laws: since the engine was made, its outside was asked for just what the entries of its history ask for, and then, where
    /// the engine is broken, for a beginning of what one event more asks for, and that its texts be rescued; and it was honest.
    pub fn outside_was_asked(&self)
        ensures asked { WasAskedJustThat self.now }
        ensures rescued { IsRescuedWhereBroken self.now }
    {
        let _ = &self.engine;
    }

    /// The entries, in order. Each client comes first and once, and makes nothing behind its going; behind as many entries
    /// as there may be, there are leavings alone; and never are more than 64 clients here. In each the outside answered what it
    /// was asked for. A mark is the number of the entries.
    pub fn history(&self) -> &[Entry]
        ensures value { result.now ≡ self.now.engine.history }
        ensures legal { IsLegal self.now.engine.limit self.now.engine.history }
        ensures asked { AllAsked self.now.engine.history }
        ensures marked { IfSome self.now.engine.mark (λ at. at ≡ length self.now.engine.history) }
    {
        self.engine.history()
    }
}
