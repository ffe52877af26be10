//! What became of a buffer since a step began.

ghost use Rattle.std.specs.Prelude.{◌≡◌, ◌&&◌, is_ok, IsTrue};
ghost use Rattle.kak_world.specs.Stored.{just_opened, nothing_since, since_behind};

use std::alloc::AllocError;

/// What became of a buffer since a step began.
#[derive(Clone, Copy, Debug)]
pub struct Since {
    /// Whether it was opened.
    pub is_new: bool,
    /// Whether the log of the changes that lists have yet to go through began again, which brings all lists up to date: it
    /// stood at its limit when one more was due, or memory was wanting to note some.
    pub began_again: bool,
}

impl Since {
    /// It was just opened.
    pub(crate) fn just_opened() -> Since
        ensures { result ≡ just_opened }
    {
        Since {
            is_new: true,
            began_again: false,
        }
    }

    /// Nothing became of it.
    pub(crate) fn nothing() -> Since
        ensures { result ≡ nothing_since }
    {
        Since {
            is_new: false,
            began_again: false,
        }
    }

    /// Whether nothing became of it.
    pub(crate) fn is_nothing(self) -> bool
        ensures { IsTrue result → self ≡ nothing_since }
    {
        if self.is_new {
            return false;
        }
        !self.began_again
    }

    /// What became of it behind shifts, for which the log had room or not, and which could be noted or not.
    pub(crate) fn behind(self, has_room: bool, noted: &Result<(), AllocError>) -> Since
        ensures { result ≡ since_behind (has_room && is_ok noted.now) self }
    {
        if has_room && noted.is_ok() {
            return self;
        }
        Since {
            is_new: self.is_new,
            began_again: true,
        }
    }
}
