//! The copy of one selection on lines lower or higher.

ghost use Rattle.std.specs.Prelude.{◌≡◌, ◌+◌, ◌-◌, ◌<◌, ◌≤◌, ◌^◌, nat_lt, length, IfSome, option_map};
ghost use Rattle.text_model.specs.declared.TheConstants.{MAX_CHARS};
ghost use Rattle.text_model.specs.Texts.{nth_line, line_count};
ghost use Rattle.selection_set.specs.Inside.{range_of, IsInside};
ghost use Rattle.list_keys.specs.Copies.{away, copy_of};

use directions::Direction;
use kak_text::Coord;
use line_buffer::Lines;
use selection_set::Sel;

// The coordinate so many lines lower, or higher, in the same column.
fn away(at: Coord, by: u32, direction: Direction) -> Coord
    requires fits { direction ≡ Direction.Forward → at.line + by < 2 ^ 32 }
    requires reaches { direction ≡ Direction.Backward → by ≤ at.line }
    ensures { result ≡ away direction by at }
{
    match direction {
        Direction::Forward => Coord {
            line: at.line + by,
            column: at.column,
        },
        Direction::Backward => Coord {
            line: at.line - by,
            column: at.column,
        },
    }
}

// Whether a line has a character in a column.
fn has_place(lines: &Lines, at: Coord) -> bool
    requires { at.line < line_count lines.now }
    ensures { result ≡ nat_lt at.column (length (nth_line lines.now at.line)) }
{
    (at.column as usize) < lines.line(at.line as usize).len()
}

// How many lines there are from a selection's last line on, or up to its first.
fn lines_beside(lines: &Lines, sel: Sel, direction: Direction) -> u32
    requires { IsInside lines.now sel }
    ensures ahead { direction ≡ Direction.Forward → result ≡ line_count lines.now - sel.high.line }
    ensures behind { direction ≡ Direction.Backward → result ≡ sel.low.line + 1 }
    ensures few { line_count lines.now ≤ MAX_CHARS }
{
    let count = lines.line_count() as u32;
    match direction {
        Direction::Forward => count - sel.high.line,
        Direction::Backward => sel.low.line + 1,
    }
}

/// The copy of a selection the least number of lines lower, or higher, at which it has both its places; none where it
/// has them nowhere. It costs the lines that it passes over.
pub(crate) fn copy(lines: &Lines, sel: Sel, direction: Direction) -> Option<Sel>
    requires { IsInside lines.now sel }
    ensures inside { IfSome result (λ s. IsInside lines.now s) }
    ensures copies { option_map (range_of lines.now) result ≡ copy_of direction lines.now (range_of lines.now sel) }
{
    let limit = lines_beside(lines, sel, direction);
    for by in sel.high.line - sel.low.line + 1..limit {
        let low = away(sel.low, by, direction);
        let high = away(sel.high, by, direction);
        if has_place(lines, low) && has_place(lines, high) {
            return Some(Sel {
                low,
                high,
                turned: sel.turned,
                target: None,
            });
        }
    }
    None
}
