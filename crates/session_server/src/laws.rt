//! Laws of the rows of served links and of sessions that are over, and how many links there are at most.

ghost use Rattle.std.specs.Prelude.{◌≡◌, ◌++◌, ◌⊎◌, ℕ, List, [], Option};
ghost use Rattle.client_links.specs.Wires.{Wire};
ghost use Rattle.session_desk.specs.Histories.{Met};
ghost use Rattle.session_turns.specs.Histories.{own};
ghost use Rattle.session_events.specs.declared.event.Entry.{Entry};
ghost use Rattle.session_events.specs.Legal.{IsLegal};
ghost use Rattle.session_events.specs.Meaning.{rules};
ghost use Rattle.session_lines.specs.Serving.{service};
ghost use Rattle.json_ui.specs.Requests.{read_request};
ghost use Rattle.link_lines.specs.declared.ended.Ended.{Ended};
ghost use Rattle.link_lines.specs.Drawings.{DrawsOnlyMissed};
ghost use Rattle.link_lines.specs.Endings.{WasServedOver};
ghost use Rattle.kak_engine.specs.Steps.{given_by};
ghost use Rattle.session_server.specs.Rows.{opening_keys, ServedRow};
ghost use Rattle.session_server.specs.Sessions.{AllWent};

use crate::host::MAX_LINKS;

/// The row of a link goes on to hold while others go on: by each later history, in which only others have further entries,
/// and by each later mark. And though it speaks of a front, what was served and drawn is that of the whole history.
pub fn rows_stay()
    ensures stays { (limit : ℕ) (file : Option (List ℕ)) (who : ℕ) (history more : List Entry) (mark later : Option ℕ) (ended : Ended) (came closed : Wire) →
        own (rules given_by) who more ≡ [] → Met mark later → ServedRow limit file who history mark ended came closed → ServedRow limit file who (history ++ more) later ended came closed }
    ensures served { (limit : ℕ) (file : Option (List ℕ)) (who : ℕ) (history : List Entry) (mark : Option ℕ) (ended : Ended) (came closed : Wire) →
        ServedRow limit file who history mark ended came closed → WasServedOver (service given_by read_request (opening_keys file)) who history came closed ended }
    ensures drawn { (limit : ℕ) (file : Option (List ℕ)) (who : ℕ) (history : List Entry) (mark : Option ℕ) (ended : Ended) (came closed : Wire) →
        ServedRow limit file who history mark ended came closed → DrawsOnlyMissed who history }
{}

/// Behind a moment at which all had gone who had come, nobody of them goes on.
pub fn who_went_stays_away()
    ensures { (limit : ℕ) (front rest : List Entry) (who : ℕ) →
        IsLegal limit (front ++ rest) → AllWent front → (own (rules given_by) who front ≡ []) ⊎ (own (rules given_by) who rest ≡ []) }
{}

/// One session serves 1,000,000 links at most.
pub fn limits_are_these()
    ensures links { MAX_LINKS ≡ 1000000 }
{}
