//! One selection cut up into parts.

ghost use Rattle.std.specs.Prelude.{◌≡◌, ℕ, ◌+◌, ◌<◌, ◌≤◌, ◌^◌, ◌++◌, List, length};
ghost use Rattle.text_model.specs.Texts.{IsText};
ghost use Rattle.selection_set.specs.Inside.{range_of, IsInside};
ghost use Rattle.selection_set.specs.Listing.{AreInside, ranges_of};
ghost use Rattle.list_keys.specs.Cuts.{parts_of, split_by};

use kak_text::Coord;
use line_buffer::Lines;
use selection_set::Sel;
use smallvec::SmallVec;

/// How each selection is cut up.
#[derive(Clone, Copy, PartialEq, Eq, Debug)]
pub enum Split {
    /// Behind each newline.
    AtLineEnds,
    /// Into its first and its last character.
    IntoEnds,
}

/// How many parts a selection is cut into.
pub(crate) fn part_count(sel: Sel, how: Split) -> usize
    requires { sel.low.line ≤ sel.high.line }
    ensures value { (text : List ℕ) → IsText text → IsInside text sel → result ≡ length (split_by how text (range_of text sel)) }
    ensures some { 0 < result }
    ensures small { result ≤ 2 ^ 32 }
{
    match how {
        Split::AtLineEnds => (sel.high.line - sel.low.line) as usize + 1,
        Split::IntoEnds => 2,
    }
}

// A part of a selection, with its flag and without a target.
fn part(sel: Sel, low: Coord, high: Coord) -> Sel
    ensures { result ≡ record { low = low; high = high; turned = sel.turned; target = None } }
{
    Sel {
        low,
        high,
        turned: sel.turned,
        target: None,
    }
}

// Puts the parts of a selection that end at its line ends behind a list.
fn push_line_parts(lines: &Lines, sel: Sel, list: &mut SmallVec<Sel, 4>)
    requires inside { IsInside lines.now sel }
    requires listed { AreInside lines.now list.old.items }
    requires room { length list.old.items + length (parts_of lines.now (range_of lines.now sel)) ≤ list.old.capacity }
    ensures inside { AreInside lines.now list.new.items }
    ensures ranges { ranges_of lines.now list.new.items ≡ ranges_of lines.now list.old.items ++ parts_of lines.now (range_of lines.now sel) }
    ensures capacity { list.new.capacity ≡ list.old.capacity }
{
    // its contract says that the lines are a text's
    let _stored = lines.len();
    let mut from = sel.low;
    while from.line < sel.high.line {
        let end = lines.line_end(from.line);
        list.push_reserved(part(sel, from, end));
        from = Coord {
            line: from.line + 1,
            column: 0,
        };
    }
    list.push_reserved(part(sel, from, sel.high));
}

/// Puts the parts of a selection behind a list.
pub(crate) fn push_parts(lines: &Lines, sel: Sel, how: Split, list: &mut SmallVec<Sel, 4>)
    requires inside { IsInside lines.now sel }
    requires listed { AreInside lines.now list.old.items }
    requires room { length list.old.items + length (split_by how lines.now (range_of lines.now sel)) ≤ list.old.capacity }
    ensures inside { AreInside lines.now list.new.items }
    ensures ranges { ranges_of lines.now list.new.items ≡ ranges_of lines.now list.old.items ++ split_by how lines.now (range_of lines.now sel) }
    ensures capacity { list.new.capacity ≡ list.old.capacity }
{
    match how {
        Split::AtLineEnds => push_line_parts(lines, sel, list),
        Split::IntoEnds => {
            list.push_reserved(Sel::only(sel.low));
            list.push_reserved(Sel::only(sel.high));
        }
    }
}
