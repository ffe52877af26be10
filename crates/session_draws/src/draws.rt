//! Numbers that are drawn, and the strikes that they stand for.

ghost use Rattle.std.specs.Prelude.{◌≡◌, ◌<◌};
ghost use Rattle.session_draws.specs.Draws.{state_after, drawn, key_numbered, strike_from, state_behind};

use key_names::{Base, Key};

// By what a state is multiplied in a draw, and what is then added.
const MULTIPLIER: u64 = 6_364_136_223_846_793_005;

const INCREMENT: u64 = 1_442_695_040_888_963_407;

// The keys that are drawn, by their numbers.
const KEYS: [Base; 16] = [
    Base::Char('h'),
    Base::Char('l'),
    Base::Char('j'),
    Base::Char('k'),
    Base::Char('w'),
    Base::Char('b'),
    Base::Char('x'),
    Base::Char('d'),
    Base::Char('y'),
    Base::Char('p'),
    Base::Char('i'),
    Base::Char('a'),
    Base::Esc,
    Base::Ret,
    Base::Char('u'),
    Base::Char('o'),
];

/// A strike: who strikes a key, and which.
#[derive(Clone, Copy, PartialEq, Eq, Debug)]
pub struct Strike {
    pub who: u32,
    pub key: Key,
}

/// Numbers in a row that follow from a seed. Contracts see the state from which the next one is drawn.
#[derive(Clone, Copy, PartialEq, Eq, Debug)]
pub struct Draws {
    state: u64,
}

impl Draws {
    /// The numbers that follow from a seed.
    pub fn new(seed: u64) -> Draws
        ensures { result.state ≡ seed }
    {
        Draws { state: seed }
    }

    // Draws a number of 31 bits.
    fn draw(&mut self) -> u32
        ensures state { self.new.state ≡ state_after self.old.state }
        ensures number { result ≡ drawn self.old.state }
    {
        self.state = self.state.wrapping_mul(MULTIPLIER).wrapping_add(INCREMENT);
        (self.state >> 33) as u32
    }

    /// Draws a strike: which of so many clients it is of, and then its key.
    pub fn strike(&mut self, clients: u32) -> Strike
        requires { 0 < clients }
        ensures state { self.new.state ≡ state_behind self.old.state }
        ensures strike { result ≡ strike_from clients self.old.state }
        ensures who { result.who < clients }
    {
        let who = self.draw() % clients;
        let key = key_numbered(self.draw() % 16);
        Strike { who, key }
    }
}

// The key of a number.
fn key_numbered(number: u32) -> Key
    requires { number < 16 }
    ensures { result ≡ key_numbered number }
{
    Key {
        control: false,
        alt: false,
        shift: false,
        base: KEYS[number as usize],
    }
}
