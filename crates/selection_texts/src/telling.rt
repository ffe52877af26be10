//! Telling selections as texts.

ghost use Rattle.std.specs.Prelude.{◌≡◌, ◌++◌, ◌<◌, map, string_bytes, IfOk, OnOk};
ghost use Rattle.list_model.specs.Ranges.{cursor};
ghost use Rattle.text_model.specs.Texts.{IsPlace, offset};
ghost use Rattle.selection_set.specs.Inside.{IsInside, range_of};
ghost use Rattle.selection_set.specs.Listing.{AreInside, ranges_of};
ghost use Rattle.selection_set.specs.Held.{IsHeld, selected, main_of};
ghost use Rattle.selection_texts.specs.Telling.{place_told, told, told_text, description_text, told_from_main};

use crate::columns::column_told;
use byte_texts::Words;
use command_forms::{ArgumentPlace, Columns, Described};
use kak_text::Coord;
use line_buffer::Lines;
use selection_set::{Sel, Sels};
use std::alloc::{AllocError, Global};

// A place of a text, from 1.
fn place_told(lines: &Lines, columns: Columns, at: Coord) -> ArgumentPlace
    requires { IsPlace lines.now at }
    ensures { result ≡ place_told columns lines.now (offset lines.now at) }
{
    let column = column_told(lines.line(at.line as usize), columns, at.column);
    let _count = lines.line_count();
    ArgumentPlace {
        line: at.line + 1,
        column: column + 1,
    }
}

/// The places of a selection's anchor and cursor, from 1.
pub fn told(lines: &Lines, columns: Columns, sel: Sel) -> Described
    requires { IsInside lines.now sel }
    ensures { result ≡ told columns lines.now (range_of lines.now sel) }
{
    Described {
        anchor: place_told(lines, columns, sel.anchor()),
        cursor: place_told(lines, columns, sel.cursor()),
    }
}

/// The place of the main selection's cursor, from 1.
pub fn main_cursor(lines: &Lines, columns: Columns, sels: &Sels) -> ArgumentPlace
    requires { IsHeld lines.now sels.now }
    ensures { result ≡ place_told columns lines.now (cursor (main_of (selected lines.now sels.now))) }
{
    place_told(lines, columns, sels.at(sels.main()).cursor())
}

// A description as a text.
fn description_text(alloc: Global, told: Described) -> Result<String, AllocError>
    ensures { IfOk result (λ s. string_bytes s ≡ description_text told) }
{
    let ArgumentPlace { line, column } = told.anchor;
    let ArgumentPlace {
        line: cursor_line,
        column: cursor_column,
    } = told.cursor;
    format!(in alloc; "{line}.{column},{cursor_line}.{cursor_column}")
}

/// A selection as a text: `l.c,l.c`, anchor and cursor, lines and columns in bytes from 1.
pub fn selection_desc(alloc: Global, lines: &Lines, sel: Sel) -> Result<String, AllocError>
    requires { IsInside lines.now sel }
    ensures { IfOk result (λ s. string_bytes s ≡ told_text lines.now (range_of lines.now sel)) }
{
    description_text(alloc, told(lines, Columns::Bytes, sel))
}

// Adds the texts of selections.
fn push_descs(alloc: Global, lines: &Lines, sels: &[Sel], out: &mut Words) -> Result<(), AllocError>
    requires { AreInside lines.now sels.now }
    ensures { OnOk result (out.new ≡ out.old ++ map (told_text lines.now) (ranges_of lines.now sels.now)) }
{
    for sel in sels {
        out.push(selection_desc(alloc, lines, *sel)?)?;
    }
    Ok(())
}

/// All selections as texts, from the main one on, round the end.
pub fn selections_desc(alloc: Global, lines: &Lines, sels: &Sels) -> Result<Words, AllocError>
    requires { IsHeld lines.now sels.now }
    ensures { IfOk result (λ w. w ≡ told_from_main lines.now (selected lines.now sels.now)) }
{
    let mut words = Words::new(alloc);
    let (before, from) = sels.as_slice().split_at(sels.main());
    push_descs(alloc, lines, from, &mut words)?;
    push_descs(alloc, lines, before, &mut words)?;
    Ok(words)
}
