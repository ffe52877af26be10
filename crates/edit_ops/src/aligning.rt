//! Cursors that are brought to one display column.

ghost use Rattle.std.specs.Prelude.{◌≡◌, ◌-◌, ◌<◌, ◌≤◌, ◌↔◌, true, false, length, map, max, nat_lt, IfOk, OnOk, IsErrOf};
ghost use Rattle.text_model.specs.declared.TheConstants.{MAX_CHARS};
ghost use Rattle.selection_set.specs.Inside.{IsInside, range_of};
ghost use Rattle.selection_set.specs.Listing.{AreInside, ranges_of};
ghost use Rattle.selection_set.specs.Held.{IsHeld};
ghost use Rattle.buffer_store.specs.Buffers.{flat_splices, AreSplicesOf};
ghost use Rattle.edit_ops.specs.Crowding.{put_together};
ghost use Rattle.edit_ops.specs.Aligning.{alignments, cursor_column, greatest, lacking, shares_line, shares_with_next, spaced, spaces};
ghost use Rattle.edit_ops.specs.declared.aligning.AlignError.TheVariants.{NoMemory};

use buffer_store::Splice;
use kak_text::{Chars, MAX_CHARS};
use line_buffer::Lines;
use selection_set::{Sel, Sels};
use std::alloc::{AllocError, Global};
use thiserror::Error;
use window_view::{Tabstop, cell_of};

/// Why cursors aren't aligned. Nothing is changed then.
#[derive(Clone, Copy, PartialEq, Eq, Debug, Error)]
pub enum AlignError {
    /// Two selections begin on one line.
    #[error("two selections begin on one line")]
    SameLine,
    /// The spaces are more characters together than a text may have. No memory was taken for them.
    #[error("the spaces are longer than a text may be")]
    TooLong,
    /// Memory ran out.
    #[error("out of memory")]
    NoMemory,
}

impl From<AllocError> for AlignError {
    ghost from_gives = { λ _ e. e ≡ NoMemory };

    fn from(_e: AllocError) -> AlignError {
        AlignError::NoMemory
    }
}

/// The replacements that put spaces before the first character of each selection, from the first to the last: as many as
/// the display column of its cursor is below the greatest one of a cursor.
/// Whether it is refused is found before any memory is taken. It goes over the line of each cursor three times, up to the
/// cursor.
pub fn align(
    alloc: Global,
    lines: &Lines,
    sels: &Sels,
    tabstop: Tabstop,
) -> Result<Vec<Splice>, AlignError>
    requires held { IsHeld lines.now sels.now }
    ensures aligns { IfOk result (λ s. flat_splices lines.now s.items ≡ alignments lines.now tabstop.columns (ranges_of lines.now sels.now.list)) }
    ensures splices { IfOk result (λ s. AreSplicesOf lines.now s.items) }
    ensures same_line { IsErrOf result AlignError.SameLine ↔ (shares_line lines.now (ranges_of lines.now sels.now.list) ≡ true) }
    ensures long { IsErrOf result AlignError.TooLong ↔ ((shares_line lines.now (ranges_of lines.now sels.now.list) ≡ false)
        × (MAX_CHARS < put_together (alignments lines.now tabstop.columns (ranges_of lines.now sels.now.list)))) }
    ensures fits { OnOk result (put_together (alignments lines.now tabstop.columns (ranges_of lines.now sels.now.list)) ≤ MAX_CHARS) }
{
    let list = sels.as_slice();
    if share_lines(list) {
        return Err(AlignError::SameLine);
    }
    let last = greatest_column(lines, list, tabstop);
    if lack_too_much(lines, list, tabstop, last) {
        return Err(AlignError::TooLong);
    }
    let columns = columns_of(alloc, lines, list, tabstop)?;
    Ok(spaced(alloc, list, columns.as_slice(), last)?)
}

// Whether a selection begins on the line on which the next one does.
fn share_lines(sels: &[Sel]) -> bool
    ensures { result ≡ shares_with_next sels.now }
{
    for n in 1..sels.len() {
        if sels[n - 1].low.line == sels[n].low.line {
            return true;
        }
    }
    false
}

// The display columns of the cursors of selections.
fn columns_of(
    alloc: Global,
    lines: &Lines,
    sels: &[Sel],
    tabstop: Tabstop,
) -> Result<Vec<u32>, AllocError>
    requires inside { AreInside lines.now sels.now }
    ensures { IfOk result (λ c. c.items ≡ map (cursor_column lines.now tabstop.columns) (ranges_of lines.now sels.now)) }
{
    let mut columns = Vec::with_capacity(alloc, sels.len())?;
    for sel in sels {
        columns.push_reserved(column_of(lines, *sel, tabstop));
    }
    Ok(columns)
}

// The display column of the cursor of a selection.
fn column_of(lines: &Lines, sel: Sel, tabstop: Tabstop) -> u32
    requires inside { IsInside lines.now sel }
    ensures { result ≡ cursor_column lines.now tabstop.columns (range_of lines.now sel) }
{
    let at = sel.cursor();
    cell_of(lines.line(at.line as usize), at.column as usize, tabstop)
}

// The greatest display column of a cursor of selections, and 0 where there are none.
fn greatest_column(lines: &Lines, sels: &[Sel], tabstop: Tabstop) -> u32
    requires inside { AreInside lines.now sels.now }
    ensures { result ≡ greatest (map (cursor_column lines.now tabstop.columns) (ranges_of lines.now sels.now)) }
{
    let mut last = 0;
    for sel in sels {
        let column = column_of(lines, *sel, tabstop);
        last = last.max(column);
    }
    last
}

// How many spaces bring the cursor of a selection to a display column.
fn lacking_before(lines: &Lines, sel: Sel, tabstop: Tabstop, last: u32) -> usize
    requires inside { IsInside lines.now sel }
    ensures { result ≡ last - cursor_column lines.now tabstop.columns (range_of lines.now sel) }
{
    last.saturating_sub(column_of(lines, sel, tabstop)) as usize
}

// Whether the spaces that bring the cursors of selections to a display column are more characters than a text may have.
fn lack_too_much(lines: &Lines, sels: &[Sel], tabstop: Tabstop, last: u32) -> bool
    requires inside { AreInside lines.now sels.now }
    ensures { result ≡ nat_lt MAX_CHARS (lacking last (map (cursor_column lines.now tabstop.columns) (ranges_of lines.now sels.now))) }
{
    let mut room = MAX_CHARS;
    for sel in sels {
        let count = lacking_before(lines, *sel, tabstop, last);
        if room < count {
            return true;
        }
        room -= count;
    }
    false
}

// Spaces before each selection, which bring these columns to one.
fn spaced(
    alloc: Global,
    sels: &[Sel],
    columns: &[u32],
    last: u32,
) -> Result<Vec<Splice>, AllocError>
    requires { length columns.now ≡ length sels.now }
    ensures { IfOk result (λ s. s.items ≡ spaced last columns.now sels.now) }
{
    let mut splices = Vec::with_capacity(alloc, sels.len())?;
    for (n, sel) in sels.iter().enumerate() {
        let text = spaces(alloc, last.saturating_sub(columns[n]) as usize)?;
        splices.push_reserved(Splice {
            from: sel.low,
            to: sel.low,
            text,
        });
    }
    Ok(splices)
}

// So many spaces.
fn spaces(alloc: Global, count: usize) -> Result<Chars, AllocError>
    ensures { IfOk result (λ s. s ≡ spaces count) }
{
    Chars::repeated(alloc, ' ', count)
}
