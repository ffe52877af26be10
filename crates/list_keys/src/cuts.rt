//! One selection cut at its ends.

ghost use Rattle.std.specs.Prelude.{◌≡◌, ℕ, ◌+◌, Some, List, IfSome, option_map};
ghost use Rattle.text_model.specs.Texts.{IsText, IsStored, IsPlace, offset};
ghost use Rattle.selection_set.specs.Inside.{range_of, IsInside};
ghost use Rattle.motion_keys.specs.Extremes.{least_between, greatest_below};
ghost use Rattle.motion_keys.specs.Places.{OffsetsAre};
ghost use Rattle.list_keys.specs.Cuts.{ends_line, starts_line, is_solid, first_start, IsCutTo, whole_lines_in, trimmed_range, cut_by};

use directions::Direction;
use kak_text::{Class, Coord, class};
use line_buffer::Lines;
use motion_keys::{Test, nearest};
use selection_set::Sel;

/// What each selection is cut to.
#[derive(Clone, Copy, PartialEq, Eq, Debug)]
pub enum Cut {
    /// The whole lines inside it.
    WholeLines,
    /// What it has without the blanks and the newlines at its ends.
    Trimmed,
}

// Whether the character at a place is neither a blank nor a newline.
fn is_solid(lines: &Lines, at: Coord) -> bool
    requires { IsPlace lines.now at }
    ensures { result ≡ is_solid lines.now (offset lines.now at) }
{
    let own = class(lines.char_at(at));
    !(own.is(Class::Blank) || own.is(Class::Line))
}

// The first place from a place on, up to another, whose character is neither a blank nor a newline.
fn solid_from(lines: &Lines, from: Coord, last: Coord) -> Option<Coord>
    requires from { IsPlace lines.now from }
    requires last { IsPlace lines.now last }
    ensures { OffsetsAre lines.now result (least_between (is_solid lines.now) (offset lines.now from) (offset lines.now last + 1)) }
{
    let mut at = from;
    while at.is_at_most(last) {
        if is_solid(lines, at) {
            return Some(at);
        }
        match lines.next(at) {
            Some(next) => at = next,
            None => return None,
        }
    }
    None
}

// The last place up to a place whose character is neither a blank nor a newline.
fn solid_to(lines: &Lines, upto: Coord) -> Option<Coord>
    requires { IsPlace lines.now upto }
    ensures { OffsetsAre lines.now result (greatest_below (is_solid lines.now) (offset lines.now upto + 1)) }
{
    nearest(lines, upto, Direction::Backward, Test::Solid)
}

// The first place of a selection at which a line begins.
fn start_in(sel: Sel) -> Option<Coord>
    ensures { (text : List ℕ) → IsText text → IsInside text sel → OffsetsAre text result (first_start text (range_of text sel)) }
{
    if sel.low.column == 0 {
        return Some(sel.low);
    }
    if sel.low.line < sel.high.line {
        return Some(Coord {
            line: sel.low.line + 1,
            column: 0,
        });
    }
    None
}

// The last place up to a place at which a line ends.
fn end_to(lines: &Lines, upto: Coord) -> Option<Coord>
    requires { IsPlace lines.now upto }
    ensures gives { OffsetsAre lines.now result (greatest_below (ends_line lines.now) (offset lines.now upto + 1)) }
    ensures valid { IsStored lines.now }
{
    let size = lines.line(upto.line as usize).len();
    if upto.column as usize + 1 == size {
        return Some(upto);
    }
    if upto.line > 0 {
        return Some(lines.line_end(upto.line - 1));
    }
    None
}

// A selection cut to two ends, with its flag and without a target; none where they are out of order.
fn cut_to(sel: Sel, low: Coord, high: Coord) -> Option<Sel>
    ensures inside { (text : List ℕ) → IsPlace text low → IsPlace text high → IfSome result (λ s. IsInside text s) }
    ensures cuts { (text : List ℕ) → IsPlace text low → IsPlace text high → IsCutTo text sel low high result }
{
    if !low.is_at_most(high) {
        return None;
    }
    Some(Sel {
        low,
        high,
        turned: sel.turned,
        target: None,
    })
}

// The whole lines inside a selection. It costs no more than a few steps.
fn lines_inside(lines: &Lines, sel: Sel) -> Option<Sel>
    requires { IsInside lines.now sel }
    ensures inside { IfSome result (λ s. IsInside lines.now s) }
    ensures cuts { option_map (range_of lines.now) result ≡ whole_lines_in lines.now (range_of lines.now sel) }
{
    let high = end_to(lines, sel.high)?;
    let low = start_in(sel)?;
    cut_to(sel, low, high)
}

// A selection without the blanks and the newlines at its ends. It costs what it cuts off.
fn trimmed_sel(lines: &Lines, sel: Sel) -> Option<Sel>
    requires { IsInside lines.now sel }
    ensures inside { IfSome result (λ s. IsInside lines.now s) }
    ensures cuts { option_map (range_of lines.now) result ≡ trimmed_range lines.now (range_of lines.now sel) }
{
    let low = solid_from(lines, sel.low, sel.high)?;
    let high = solid_to(lines, sel.high)?;
    cut_to(sel, low, high)
}

/// What is left of a selection that is cut, if anything.
pub(crate) fn cut_sel(lines: &Lines, sel: Sel, how: Cut) -> Option<Sel>
    requires { IsInside lines.now sel }
    ensures inside { IfSome result (λ s. IsInside lines.now s) }
    ensures cuts { option_map (range_of lines.now) result ≡ cut_by how lines.now (range_of lines.now sel) }
{
    match how {
        Cut::WholeLines => lines_inside(lines, sel),
        Cut::Trimmed => trimmed_sel(lines, sel),
    }
}
