//! One selection searched for a pattern.

ghost use Rattle.std.specs.Prelude.{◌≡◌, ◌+◌, IfOk};
ghost use Rattle.text_model.specs.Texts.{IsPlace, IsPlaceOrEnd, offset};
ghost use Rattle.selection_set.specs.Inside.{range_of, IsInside};
ghost use Rattle.regex_select.specs.Rows.{selected_chars, spans_in};

use crate::writing::written;
use kak_text::Coord;
use line_buffer::Lines;
use regex_ports::{Pattern, Span};
use selection_set::Sel;
use std::alloc::{AllocError, Global};

/// The place behind a place, or the end.
pub(crate) fn behind(lines: &Lines, at: Coord) -> Coord
    requires { IsPlace lines.now at }
    ensures place { IsPlaceOrEnd lines.now result }
    ensures offset { offset lines.now result ≡ offset lines.now at + 1 }
{
    match lines.next(at) {
        Some(next) => next,
        None => Coord {
            line: lines.line_count() as u32,
            column: 0,
        },
    }
}

/// The matches of a pattern in a selection, which is searched by itself, in bytes of its characters.
pub(crate) fn spans<P: Pattern>(
    alloc: Global,
    lines: &Lines,
    sel: Sel,
    pattern: &P,
) -> Result<Vec<Span>, AllocError>
    requires { IsInside lines.now sel }
    ensures { IfOk result (λ v. v.items ≡ spans_in (P.source pattern.now) (selected_chars lines.now (range_of lines.now sel))) }
{
    let text = written(alloc, lines, sel)?;
    pattern.matches(alloc, text.as_str())
}
