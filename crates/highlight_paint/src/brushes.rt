//! Faces that lie over lines without a pattern.

ghost use Rattle.std.specs.Prelude.{◌≡◌, ◌+◌, ◌++◌, ◌<◌, ◌^◌, OnOk};
ghost use Rattle.compact_chars.specs.Rows.{chars_of};
ghost use Rattle.highlight_paint.specs.Overs.{is_whitespace, over_whole, whitespace_overs, brush_overs};

use compact_chars::CharsRef;
use face_grounds::Over;
use kak_faces::Face;
use std::alloc::{AllocError, Global};

/// What a highlighter without a pattern lays over lines, in the face in which it is seen.
#[derive(Clone, Copy, Debug)]
pub(crate) enum Brush {
    Everywhere(Face),
    OnLine(u32, Face),
    OnColumn(u32, Face),
    OnWhitespaces(Face),
}

// Whether a character is a space, a tab or a newline.
fn is_whitespace(c: char) -> bool
    ensures { result ≡ is_whitespace c }
{
    c == ' ' || c == '\t' || c == '\n'
}

// Adds a face over all of a line.
fn push_whole(overs: &mut Vec<Over>, line: CharsRef<'_>, face: Face) -> Result<(), AllocError>
    ensures { OnOk result (overs.new.items ≡ overs.old.items ++ over_whole (chars_of line.entry) face) }
{
    overs.push(Over {
        from: 0,
        to: line.len(),
        face,
    })?;
    Ok(())
}

// Adds a face over each space, tab and newline of a line.
fn push_whitespaces(overs: &mut Vec<Over>, line: CharsRef<'_>, face: Face) -> Result<(), AllocError>
    ensures { OnOk result (overs.new.items ≡ overs.old.items ++ whitespace_overs face 0 (chars_of line.entry)) }
{
    for i in 0..line.len() {
        if !is_whitespace(line.at(i)) {
            continue;
        }
        overs.push(Over {
            from: i,
            to: i + 1,
            face,
        })?;
    }
    Ok(())
}

/// Adds what a brush lays over the n-th line from 0.
pub(crate) fn push_brush(
    overs: &mut Vec<Over>,
    brush: Brush,
    n: usize,
    line: CharsRef<'_>,
) -> Result<(), AllocError>
    requires { n + 1 < 2 ^ 64 }
    ensures { OnOk result (overs.new.items ≡ overs.old.items ++ brush_overs brush n (chars_of line.entry)) }
{
    match brush {
        Brush::Everywhere(face) => push_whole(overs, line, face),
        Brush::OnLine(number, face) => {
            if n + 1 == number as usize {
                return push_whole(overs, line, face);
            }
            Ok(())
        }
        Brush::OnColumn(number, face) => {
            let to = number as usize;
            let from = to.saturating_sub(1);
            overs.push(Over { from, to, face })?;
            Ok(())
        }
        Brush::OnWhitespaces(face) => push_whitespaces(overs, line, face),
    }
}
