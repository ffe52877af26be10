//! The characters of a part of a text, written to a string.

ghost use Rattle.std.specs.Prelude.{◌≡◌, ◌≤◌, ◌++◌, slice_range, string_bytes, encode_utf8_all, IfOk, OnOk};
ghost use Rattle.text_model.specs.Texts.{offset, IsPlaceOrEnd};
ghost use Rattle.selection_set.specs.Inside.{range_of, IsInside};
ghost use Rattle.regex_select.specs.Rows.{selected_bytes};

use crate::gathering::Gathered;
use crate::searching::behind;
use kak_text::Coord;
use line_buffer::Lines;
use selection_set::Sel;
use std::alloc::{AllocError, Global};

/// Characters with those behind them from a place of a text to before another, or to the end. It costs these.
pub(crate) fn with_part(
    gathered: Gathered,
    lines: &Lines,
    from: Coord,
    to: Coord,
) -> Result<Gathered, AllocError>
    requires from { IsPlaceOrEnd lines.now from }
    requires to { IsPlaceOrEnd lines.now to }
    requires ordered { offset lines.now from ≤ offset lines.now to }
    ensures { IfOk result (λ new. new ≡ gathered ++ encode_utf8_all (slice_range lines.now (offset lines.now from) (offset lines.now to))) }
{
    let mut all = gathered;
    let mut start = from.column as usize;
    for n in from.line..to.line {
        all = all.with_run(lines.line(n as usize).behind(start))?;
        start = 0;
    }
    let column = to.column as usize;
    if column <= start {
        return Ok(all);
    }
    all.with_run(lines.line(to.line as usize).between(start, column))
}

/// The characters of a selection. It costs these.
pub(crate) fn written(alloc: Global, lines: &Lines, sel: Sel) -> Result<String, AllocError>
    requires { IsInside lines.now sel }
    ensures { IfOk result (λ text. string_bytes text ≡ selected_bytes lines.now (range_of lines.now sel)) }
{
    let none = Gathered::with_room(alloc, 0)?;
    with_part(none, lines, sel.low, behind(lines, sel.high))?.finish()
}

/// Makes a string the characters of a selection, in the memory that it has where that is enough. It costs these.
pub(crate) fn write(lines: &Lines, sel: Sel, text: &mut String) -> Result<(), AllocError>
    requires { IsInside lines.now sel }
    ensures { OnOk result (string_bytes text.new ≡ selected_bytes lines.now (range_of lines.now sel)) }
{
    text.clear();
    lines.push_slice(text, sel.low, behind(lines, sel.high))?;
    Ok(())
}
