//! The lines of a drawing.

ghost use Rattle.std.specs.Prelude.{◌≡◌, ◌++◌, ◌∷◌, [], if◌then◌else◌, codes, decimal, OnOk};
ghost use Rattle.json_writing.specs.Grows.{Grows};
ghost use Rattle.json_writing.specs.Drawings.{face_text, line_text, lines_text, options_lines, draw_lines, status_lines, cursor_lines, place_text, cursor_word, info_lines, box_lines, refresh_lines, drawing_bytes};

use crate::atom_ends::AtomEnds;
use crate::face_bytes::push_face;
use crate::line_bytes::{push_line, push_lines};
use crate::text_bytes::{push_byte, push_number, push_text};
use drawings::{Cursor, Drawing, DrawnLine, DrawnLines, Info, InfoBox};
use kak_faces::Face;
use std::alloc::AllocError;

// Adds a face behind a comma.
fn push_next_face(out: &mut Vec<u8>, face: &Face) -> Result<(), AllocError>
    ensures ok { OnOk result (out.new.items ≡ out.old.items ++ 44 ∷ face_text face.now) }
    ensures grows { Grows out.old.items out.new.items }
{
    push_byte(out, b',')?;
    push_face(out, face)
}

// Adds a face behind a comma, and ends the request.
fn push_last_face(out: &mut Vec<u8>, face: &Face) -> Result<(), AllocError>
    ensures ok { OnOk result (out.new.items ≡ out.old.items ++ (44 ∷ face_text face.now ++ codes "]}\n")) }
    ensures grows { Grows out.old.items out.new.items }
{
    push_next_face(out, face)?;
    push_text(out, "]}\n")
}

// Adds the request that sets the options, at a first drawing.
fn push_options(out: &mut Vec<u8>, first: bool) -> Result<(), AllocError>
    ensures ok { OnOk result (out.new.items ≡ out.old.items ++ options_lines first) }
    ensures grows { Grows out.old.items out.new.items }
{
    if !first {
        return Ok(());
    }
    push_text(
        out,
        "{\"jsonrpc\":\"2.0\",\"method\":\"set_ui_options\",\"params\":[{}]}\n",
    )
}

// Adds the request that draws the lines.
fn push_draw(
    out: &mut Vec<u8>,
    ends: &mut AtomEnds,
    lines: &DrawnLines,
    default_face: &Face,
    padding_face: &Face,
) -> Result<(), AllocError>
    ensures ok { OnOk result (out.new.items ≡ out.old.items ++ draw_lines lines.now default_face.now padding_face.now) }
    ensures grows { Grows out.old.items out.new.items }
{
    push_text(out, "{\"jsonrpc\":\"2.0\",\"method\":\"draw\",\"params\":[")?;
    push_lines(out, ends, lines.as_slice())?;
    push_next_face(out, default_face)?;
    push_last_face(out, padding_face)?;
    Ok(())
}

// Adds a line behind a comma.
fn push_next_line(
    out: &mut Vec<u8>,
    ends: &mut AtomEnds,
    line: &DrawnLine,
) -> Result<(), AllocError>
    ensures ok { OnOk result (out.new.items ≡ out.old.items ++ 44 ∷ line_text line.now) }
    ensures grows { Grows out.old.items out.new.items }
{
    push_byte(out, b',')?;
    push_line(out, ends, line)
}

// Adds the request that draws the status and the mode line.
fn push_status(
    out: &mut Vec<u8>,
    ends: &mut AtomEnds,
    status: &DrawnLine,
    mode_line: &DrawnLine,
    face: &Face,
) -> Result<(), AllocError>
    ensures ok { OnOk result (out.new.items ≡ out.old.items ++ status_lines status.now mode_line.now face.now) }
    ensures grows { Grows out.old.items out.new.items }
{
    push_text(
        out,
        "{\"jsonrpc\":\"2.0\",\"method\":\"draw_status\",\"params\":[",
    )?;
    push_line(out, ends, status)?;
    push_next_line(out, ends, mode_line)?;
    push_last_face(out, face)?;
    Ok(())
}

// The word for where the cursor stands.
fn cursor_word(prompt: bool) -> &'static str
    ensures { result.now ≡ cursor_word prompt }
{
    if prompt { "prompt" } else { "buffer" }
}

// Adds the column of a place, which begins it.
fn push_column(out: &mut Vec<u8>, column: u32) -> Result<(), AllocError>
    ensures ok { OnOk result (out.new.items ≡ out.old.items ++ (codes "{\"column\":" ++ decimal column)) }
    ensures grows { Grows out.old.items out.new.items }
{
    push_text(out, "{\"column\":")?;
    push_number(out, column)
}

// Adds a place by its line and column.
fn push_place(out: &mut Vec<u8>, line: u32, column: u32) -> Result<(), AllocError>
    ensures ok { OnOk result (out.new.items ≡ out.old.items ++ place_text line column) }
    ensures grows { Grows out.old.items out.new.items }
{
    push_column(out, column)?;
    push_text(out, ",\"line\":")?;
    push_number(out, line)?;
    push_byte(out, b'}')?;
    Ok(())
}

// Begins the request that sets the cursor.
fn push_cursor_word(out: &mut Vec<u8>, prompt: bool) -> Result<(), AllocError>
    ensures ok { OnOk result (out.new.items ≡ out.old.items
        ++ (codes "{\"jsonrpc\":\"2.0\",\"method\":\"set_cursor\",\"params\":[\"" ++ cursor_word prompt)) }
    ensures grows { Grows out.old.items out.new.items }
{
    push_text(
        out,
        "{\"jsonrpc\":\"2.0\",\"method\":\"set_cursor\",\"params\":[\"",
    )?;
    push_text(out, cursor_word(prompt))?;
    Ok(())
}

// Adds the request that sets the cursor.
fn push_cursor(out: &mut Vec<u8>, cursor: Cursor) -> Result<(), AllocError>
    ensures ok { OnOk result (out.new.items ≡ out.old.items ++ cursor_lines cursor) }
    ensures grows { Grows out.old.items out.new.items }
{
    push_cursor_word(out, cursor.prompt)?;
    push_text(out, "\",")?;
    push_place(out, cursor.line, cursor.column)?;
    push_text(out, "]}\n")?;
    Ok(())
}

// Begins the request that shows a box, with its title.
fn push_title(out: &mut Vec<u8>, ends: &mut AtomEnds, title: &DrawnLine) -> Result<(), AllocError>
    ensures ok { OnOk result (out.new.items ≡ out.old.items
        ++ (codes "{\"jsonrpc\":\"2.0\",\"method\":\"info_show\",\"params\":[" ++ line_text title.now)) }
    ensures grows { Grows out.old.items out.new.items }
{
    push_text(
        out,
        "{\"jsonrpc\":\"2.0\",\"method\":\"info_show\",\"params\":[",
    )?;
    push_line(out, ends, title)?;
    Ok(())
}

// Adds the lines of a box.
fn push_content(
    out: &mut Vec<u8>,
    ends: &mut AtomEnds,
    content: &DrawnLines,
) -> Result<(), AllocError>
    ensures ok { OnOk result (out.new.items ≡ out.old.items ++ 44 ∷ lines_text content.now) }
    ensures grows { Grows out.old.items out.new.items }
{
    push_byte(out, b',')?;
    push_lines(out, ends, content.as_slice())
}

// Adds the anchor, the face and the style of a box, and ends the request.
fn push_box_end(out: &mut Vec<u8>, face: &Face) -> Result<(), AllocError>
    ensures ok { OnOk result (out.new.items ≡ out.old.items
        ++ (codes ",{\"column\":0,\"line\":0}," ++ (face_text face.now ++ codes ",\"prompt\"]}\n"))) }
    ensures grows { Grows out.old.items out.new.items }
{
    push_text(out, ",{\"column\":0,\"line\":0},")?;
    push_face(out, face)?;
    push_text(out, ",\"prompt\"]}\n")?;
    Ok(())
}

// Adds the request that shows a box.
fn push_box(out: &mut Vec<u8>, ends: &mut AtomEnds, info: &InfoBox) -> Result<(), AllocError>
    ensures ok { OnOk result (out.new.items ≡ out.old.items ++ box_lines info.now) }
    ensures grows { Grows out.old.items out.new.items }
{
    push_title(out, ends, &info.title)?;
    push_content(out, ends, &info.content)?;
    push_box_end(out, &info.face)?;
    Ok(())
}

// Adds the request on the box, where it changed.
fn push_info(out: &mut Vec<u8>, ends: &mut AtomEnds, info: &Info) -> Result<(), AllocError>
    ensures ok { OnOk result (out.new.items ≡ out.old.items ++ info_lines info.now) }
    ensures grows { Grows out.old.items out.new.items }
{
    match info {
        Info::Keep => Ok(()),
        Info::Hide => push_text(
            out,
            "{\"jsonrpc\":\"2.0\",\"method\":\"info_hide\",\"params\":[]}\n",
        ),
        Info::Show(shown) => push_box(out, ends, shown),
    }
}

// Adds what comes before the cursor.
fn push_window(out: &mut Vec<u8>, ends: &mut AtomEnds, drawing: &Drawing) -> Result<(), AllocError>
    ensures ok { OnOk result (out.new.items ≡ out.old.items ++ (options_lines drawing.now.first
        ++ (draw_lines drawing.now.lines drawing.now.default_face drawing.now.padding_face
        ++ status_lines drawing.now.status drawing.now.mode_line drawing.now.status_face))) }
    ensures grows { Grows out.old.items out.new.items }
{
    push_options(out, drawing.first)?;
    push_draw(
        out,
        ends,
        &drawing.lines,
        &drawing.default_face,
        &drawing.padding_face,
    )?;
    push_status(
        out,
        ends,
        &drawing.status,
        &drawing.mode_line,
        &drawing.status_face,
    )?;
    Ok(())
}

/// Adds the lines of a drawing. After an error the old bytes stay, and some bytes of the drawing
/// may stand behind them.
pub fn encode_drawing(drawing: &Drawing, out: &mut Vec<u8>) -> Result<(), AllocError>
    ensures ok { OnOk result (out.new.items ≡ out.old.items ++ drawing_bytes drawing.now) }
    ensures grows { Grows out.old.items out.new.items }
{
    let mut ends = AtomEnds::new(*out.allocator());
    push_window(out, &mut ends, drawing)?;
    push_cursor(out, drawing.cursor)?;
    push_info(out, &mut ends, &drawing.info)?;
    push_text(
        out,
        "{\"jsonrpc\":\"2.0\",\"method\":\"refresh\",\"params\":[false]}\n",
    )?;
    Ok(())
}
