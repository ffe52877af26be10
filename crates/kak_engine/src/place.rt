//! Where a part of a step stands.

ghost use Rattle.std.specs.Prelude.{◌≡◌, nat_lt, false, true, MatchOption};
ghost use Rattle.kak_engine.specs.Doing.{top, deeper, quiet_unless};

/// How deep what is run in a step may stand inside one another.
pub const MAX_DEPTH: u32 = 32;

/// Where a part of a step stands: the client that acts, how deep it stands inside others, and whether hooks are run of what it
/// does.
#[derive(Clone, Copy, PartialEq, Eq, Debug)]
pub struct Place {
    pub who: u32,
    pub depth: u32,
    pub hooks: bool,
}

impl Place {
    /// One deeper, where a step may go so deep.
    pub(crate) fn deeper(self) -> Option<Place>
        ensures { MatchOption result (nat_lt self.depth MAX_DEPTH ≡ false) (λ inner. (nat_lt self.depth MAX_DEPTH ≡ true) × (inner ≡ deeper self)) }
    {
        if self.depth >= MAX_DEPTH {
            return None;
        }
        Some(Place {
            who: self.who,
            depth: self.depth + 1,
            hooks: self.hooks,
        })
    }

    /// The place where a client's step begins.
    pub(crate) fn top(who: u32) -> Place
        ensures { result ≡ top who }
    {
        Place {
            who,
            depth: 0,
            hooks: true,
        }
    }

    /// The same place, in which hooks are run where they are asked for; where they weren't run before, they aren't.
    pub(crate) fn quiet_unless(self, hooks: bool) -> Place
        ensures { result ≡ quiet_unless hooks self }
    {
        Place {
            who: self.who,
            depth: self.depth,
            hooks: self.hooks && hooks,
        }
    }
}
