//! A law of served links.

ghost use Rattle.std.specs.Prelude.{◌≡◌, ◌++◌, ℕ, List, []};
ghost use Rattle.client_links.specs.Wires.{Wire};
ghost use Rattle.session_turns.specs.Histories.{own};
ghost use Rattle.session_events.specs.declared.event.Entry.{Entry};
ghost use Rattle.session_events.specs.Meaning.{Gives, rules};
ghost use Rattle.session_lines.specs.Serving.{Service};
ghost use Rattle.link_lines.specs.declared.ended.Ended.{Ended};
ghost use Rattle.link_lines.specs.Drawings.{DrawsOnlyMissed};
ghost use Rattle.link_lines.specs.Endings.{WasServedOver};

/// A link that was served goes on to be a served one while others go on: what holds of it by the history in which it ended
/// holds by every later one, in which only others have further entries.
pub fn served_later()
    ensures served { (with : Service) (who : ℕ) (history more : List Entry) (before now : Wire) (ended : Ended) →
        own (rules with.gives) who more ≡ [] → WasServedOver with who history before now ended → WasServedOver with who (history ++ more) before now ended }
    ensures drawn { (gives : Gives) (who : ℕ) (history more : List Entry) →
        own (rules gives) who more ≡ [] → DrawsOnlyMissed who history → DrawsOnlyMissed who (history ++ more) }
{}
