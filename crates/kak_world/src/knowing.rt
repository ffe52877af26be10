//! What is known of the matches of a pattern in the text that a client sees. The flat world says nothing of it.

ghost use Rattle.std.specs.Prelude.{◌≡◌, true};
ghost use Rattle.kak_world.specs.Flat.{is_joined, text_of};
ghost use Rattle.regex_select.specs.Known.{AreMatchesIn};

use crate::turn::Turn;
use crate::world::World;
use regex_ports::Pattern;
use regex_select::KnownMatches;

impl<P: Pattern, T: Turn> World<P, T> {
    /// What is known of the matches of a pattern in the text that a client sees.
    pub fn known_matches(&self, who: u32) -> &KnownMatches
        requires { is_joined who self.now.flat ≡ true }
        ensures { AreMatchesIn (text_of who self.now.flat) result.now }
    {
        self.shown(who).known_matches()
    }

    /// Lets this be known of the matches of a pattern in the text that a client sees, until the text is changed, or something else
    /// is to be known. Nothing that contracts see of the world changes. Takes no memory.
    pub fn know_matches(&mut self, who: u32, known: KnownMatches)
        requires joined { is_joined who self.old.flat ≡ true }
        requires known { AreMatchesIn (text_of who self.old.flat) known }
        ensures { self.new ≡ self.old }
    {
        let n = self.clients.client(who).shown as usize;
        match &mut self.buffers[n] {
            None => unreachable!(),
            Some(buffer) => buffer.know_matches(known),
        }
    }
}
