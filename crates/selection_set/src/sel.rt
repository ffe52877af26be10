//! One selection, and its two ends.

ghost use Rattle.std.specs.Prelude.{◌≡◌, None, true, false};

use text_model::Coord;

/// A selection: from its first to its last character, both inside it.
#[derive(Clone, Copy, PartialEq, Eq, Debug)]
pub struct Sel {
    /// The first character.
    pub low: Coord,
    /// The last character.
    pub high: Coord,
    /// Whether the cursor is at the first character; else it is at the last.
    pub turned: bool,
    /// The display column that vertical moves aim at, from 0.
    pub target: Option<u32>,
}

/// The two ends of a selection, in any order.
#[derive(Clone, Copy, PartialEq, Eq, Debug)]
pub struct Pair {
    /// The end that stays.
    pub anchor: Coord,
    /// The end that moves.
    pub cursor: Coord,
}

impl Default for Sel {
    ghost is_default = { λ s. s ≡ record { low = record { line = 0; column = 0 }; high = record { line = 0; column = 0 }; turned = false; target = None } };

    fn default() -> Sel {
        Sel::only(Coord { line: 0, column: 0 })
    }
}

impl Sel {
    ghost use Rattle.selection_set.specs.Inside.{cursor_at, anchor_at};
    ghost use Rattle.text_model.specs.Coords.{is_at_most};
    ghost use Rattle.std.specs.Prelude.{if◌then◌else◌};

    /// The selection of one character, without a target.
    pub fn only(place: Coord) -> Sel
        ensures { result ≡ record { low = place; high = place; turned = false; target = None } }
    {
        Sel {
            low: place,
            high: place,
            turned: false,
            target: None,
        }
    }

    /// The selection between two ends, without a target: turned exactly where the cursor is before the anchor.
    pub fn of_pair(pair: Pair) -> Sel
        ensures { result ≡ (if is_at_most pair.anchor pair.cursor
            then record { low = pair.anchor; high = pair.cursor; turned = false; target = None }
            else record { low = pair.cursor; high = pair.anchor; turned = true; target = None }) }
    {
        if pair.anchor.is_at_most(pair.cursor) {
            return Sel {
                low: pair.anchor,
                high: pair.cursor,
                turned: false,
                target: None,
            };
        }
        Sel {
            low: pair.cursor,
            high: pair.anchor,
            turned: true,
            target: None,
        }
    }

    /// The end that moves.
    pub fn cursor(self) -> Coord
        ensures { result ≡ cursor_at self }
    {
        if self.turned { self.low } else { self.high }
    }

    /// The end that stays.
    pub fn anchor(self) -> Coord
        ensures { result ≡ anchor_at self }
    {
        if self.turned { self.high } else { self.low }
    }
}
