//! Blanks that lines get or lose at their start.

ghost use Rattle.std.specs.Prelude.{◌≡◌, ◌<◌, IfOk};
ghost use Rattle.text_model.specs.Texts.{IsPlaceOrEnd, line_count, nth_line};
ghost use Rattle.selection_set.specs.Listing.{ranges_of};
ghost use Rattle.selection_set.specs.Held.{IsHeld};
ghost use Rattle.buffer_store.specs.Buffers.{flat_splice, flat_splices, IsSpliceOf, AreSplicesOf};
ghost use Rattle.edit_ops.specs.Blanks.{blanks_within};
ghost use Rattle.edit_ops.specs.Indenting.{indentation, most_columns, indent_at, has_more, indents};

use crate::kinds::Indent;
use crate::line_blanks::blanks_within;
use crate::places::line_start;
use crate::spans::{LineReach, lines_reached};
use buffer_store::Splice;
use kak_text::{Chars, Coord};
use line_buffer::Lines;
use selection_set::Sels;
use std::alloc::{AllocError, Global};
use window_view::Tabstop;

/// The replacements that indent the lines that selections touch, from the first to the last, each once; lines of their newline
/// alone are left out. Lines get `width` spaces, or one tab where it is 0; or they lose the blanks at their start that take
/// at most `width` columns, or at most those of a tab where it is 0. Where a line has no such blanks, its replacement changes
/// nothing. It costs the list, and for each line that is touched what goes in or out there.
pub fn indent(
    alloc: Global,
    lines: &Lines,
    sels: &Sels,
    how: Indent,
    width: u32,
    tabstop: Tabstop,
) -> Result<Vec<Splice>, AllocError>
    requires { IsHeld lines.now sels.now }
    ensures indents { IfOk result (λ s. flat_splices lines.now s.items ≡ indents lines.now how width tabstop.columns (ranges_of lines.now sels.now.list)) }
    ensures splices { IfOk result (λ s. AreSplicesOf lines.now s.items) }
{
    let numbers = lines_reached(alloc, lines, sels, LineReach::Touched)?;
    let mut splices = Vec::with_capacity(alloc, numbers.len())?;
    for n in numbers.as_slice() {
        if has_more(lines, *n) {
            splices.push_reserved(indent_at(alloc, lines, how, width, tabstop, *n)?);
        }
    }
    Ok(splices)
}

// Whether a line has more than its newline.
fn has_more(lines: &Lines, n: u32) -> bool
    requires { n < line_count lines.now }
    ensures { result ≡ has_more lines.now n }
{
    lines.line(n as usize).len() > 1
}

// What happens at the start of a line.
fn indent_at(
    alloc: Global,
    lines: &Lines,
    how: Indent,
    width: u32,
    tabstop: Tabstop,
    n: u32,
) -> Result<Splice, AllocError>
    requires { n < line_count lines.now }
    ensures indents { IfOk result (λ s. flat_splice lines.now s ≡ indent_at lines.now how width tabstop.columns n) }
    ensures ends { IfOk result (λ s. IsSpliceOf lines.now s) }
{
    let start = line_start(lines, n);
    match how {
        Indent::More => Ok(Splice {
            from: start,
            to: start,
            text: indentation(alloc, width)?,
        }),
        Indent::Less => Ok(Splice {
            from: start,
            to: behind_blanks(lines, n, width, tabstop),
            text: Chars::new(alloc),
        }),
    }
}

// The place in a line behind the blanks that it loses.
fn behind_blanks(lines: &Lines, n: u32, width: u32, tabstop: Tabstop) -> Coord
    requires { n < line_count lines.now }
    ensures place { IsPlaceOrEnd lines.now result }
    ensures value { result ≡ record { line = n; column = blanks_within tabstop.columns (most_columns width tabstop.columns) 0 (nth_line lines.now n) } }
{
    let most = if width == 0 { tabstop.columns } else { width };
    let column = blanks_within(lines.line(n as usize), tabstop, most);
    Coord {
        line: n,
        column: column as u32,
    }
}

// What a line gets.
fn indentation(alloc: Global, width: u32) -> Result<Chars, AllocError>
    ensures { IfOk result (λ c. c ≡ indentation width) }
{
    if width == 0 {
        return Chars::from_slice(alloc, &['\t']);
    }
    let mut chars = Chars::new(alloc);
    for _ in 0..width {
        chars.push(' ')?;
    }
    Ok(chars)
}
