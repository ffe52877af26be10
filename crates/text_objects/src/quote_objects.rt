//! The objects between quotes.

ghost use Rattle.std.specs.Prelude.{◌≡◌, ◌≤◌};
ghost use Rattle.text_model.specs.Texts.{offset, IsPlace};
ghost use Rattle.list_model.specs.Ranges.{cursor};
ghost use Rattle.selection_set.specs.Inside.{range_of, IsInside};
ghost use Rattle.motion_keys.specs.Words.{EndsAre};
ghost use Rattle.text_objects.specs.Pairs.{around_quotes, inner_quotes};

use crate::bracket_objects::between;
use kak_text::{Coord, MAX_CHARS};
use line_buffer::Lines;
use selection_set::{Pair, Sel};

// Two characters of a line, by their columns.
fn pair_on(line: u32, first: usize, last: usize) -> Pair
    requires first { first ≤ MAX_CHARS }
    requires last { last ≤ MAX_CHARS }
    ensures { result ≡ record { anchor = record { line = line; column = first }; cursor = record { line = line; column = last } } }
{
    let anchor = Coord {
        line,
        column: first as u32,
    };
    let cursor = Coord {
        line,
        column: last as u32,
    };
    Pair { anchor, cursor }
}

// The pair of quotes that holds a place: those of its line are paired from the left.
fn quotes_at(lines: &Lines, at: Coord, quote: char) -> Option<Pair>
    requires { IsPlace lines.now at }
    ensures gives { EndsAre lines.now result (around_quotes quote lines.now (offset lines.now at)) }
{
    let line = lines.line(at.line as usize);
    let place = at.column as usize;
    let mut unpaired = None;
    for column in 0..line.len() {
        if line.at(column) != quote {
            continue;
        }
        if let Some(first) = unpaired {
            if place <= column {
                return Some(pair_on(at.line, first, column));
            }
            unpaired = None;
            continue;
        }
        if place < column {
            return None;
        }
        unpaired = Some(column);
    }
    None
}

/// The pair of quotes that holds the cursor, which may stand on one of them: the quotes of the cursor's line are paired
/// from its left. None where no such pair holds the cursor. It costs the line up to the pair's end.
pub fn around_quotes(lines: &Lines, sel: &Sel, quote: char) -> Option<Pair>
    requires { IsInside lines.now sel.now }
    ensures gives { EndsAre lines.now result (around_quotes quote lines.now (cursor (range_of lines.now sel.now))) }
{
    quotes_at(lines, sel.cursor(), quote)
}

/// What stands between the quotes of that pair. None where nothing does, too.
pub fn inner_quotes(lines: &Lines, sel: &Sel, quote: char) -> Option<Pair>
    requires { IsInside lines.now sel.now }
    ensures gives { EndsAre lines.now result (inner_quotes quote lines.now (cursor (range_of lines.now sel.now))) }
{
    let pair = quotes_at(lines, sel.cursor(), quote)?;
    between(lines, pair)
}
