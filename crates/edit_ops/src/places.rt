//! Places beside places.

ghost use Rattle.std.specs.Prelude.{◌≡◌, ◌+◌, ◌-◌, ◌<◌};
ghost use Rattle.text_model.specs.Texts.{IsPlace, IsPlaceOrEnd, offset, line_count};

use kak_text::Coord;
use line_buffer::Lines;

/// The place behind a place, or the end.
#[tactic(auto, using(line_buffer::proofs::StepLemmas::steps))]
pub(crate) fn behind(lines: &Lines, at: Coord) -> Coord
    requires { IsPlace lines.now at }
    ensures place { IsPlaceOrEnd lines.now result }
    ensures next { offset lines.now result ≡ offset lines.now at + 1 }
{
    if at.column as usize + 1 < lines.line(at.line as usize).len() {
        return Coord {
            line: at.line,
            column: at.column + 1,
        };
    }
    next_line(lines, at.line)
}

/// The begin of the next line, or the end.
#[tactic(auto, using(line_buffer::proofs::StepLemmas::steps))]
pub(crate) fn next_line(lines: &Lines, n: u32) -> Coord
    requires { n < line_count lines.now }
    ensures value { result ≡ record { line = n + 1; column = 0 } }
    ensures place { IsPlaceOrEnd lines.now result }
{
    let count = lines.line_count();
    let next = n + 1;
    Coord {
        line: next,
        column: 0,
    }
}

/// The begin of a line.
#[tactic(auto, using(line_buffer::proofs::StepLemmas::steps))]
pub(crate) fn line_start(lines: &Lines, n: u32) -> Coord
    requires { n < line_count lines.now }
    ensures value { result ≡ record { line = n; column = 0 } }
    ensures place { IsPlaceOrEnd lines.now result }
{
    let count = lines.line_count();
    Coord { line: n, column: 0 }
}

/// The place before a place; the first place is its own.
pub(crate) fn before(lines: &Lines, at: Coord) -> Coord
    requires { IsPlace lines.now at }
    ensures place { IsPlaceOrEnd lines.now result }
    ensures prev { offset lines.now result ≡ offset lines.now at - 1 }
{
    match lines.prev(at) {
        Some(place) => place,
        None => at,
    }
}
