//! How many cells the numbers of lines take before them.

ghost use Rattle.std.specs.Prelude.{◌≡◌, ◌≤◌, ◌^◌, length, min, decimal};
ghost use Rattle.kak_text.specs.Cells.{column_behind};
ghost use Rattle.highlight_paint.specs.Painters.{paints_of, painting_at, painting};
ghost use Rattle.highlight_paint.specs.Numbers.{painter_behind, numbers_behind, gutter_of};

use crate::highlighters::Highlighters;
use crate::painter::Painter;
use crate::painting::Viewer;
use crate::rows::{HighlighterRow, is_of_scope};
use itoa::Buffer;
use kak_text::cells;
use regex_ports::Pattern;
use scope_options::Scope;
use window_view::Tabstop;

// Where cells aren't counted any further.
const LAST_COLUMN: u32 = 0x8000_0000;

// How many digits a number has.
fn digits(n: usize) -> u32
    ensures value { result ≡ length (decimal n) }
    ensures few { result ≤ 40 }
{
    let mut buffer = Buffer::new();
    buffer.format(n).len() as u32
}

// The display column behind characters that begin at one, but none further than 2^31.
fn behind(chars: &[char], column: u32, tabstop: Tabstop) -> u32
    ensures { result ≡ min (column_behind tabstop.columns column chars.now) (2 ^ 31) }
{
    let mut at = column;
    for c in chars {
        if at >= LAST_COLUMN {
            return LAST_COLUMN;
        }
        at += cells(*c, at, tabstop.columns);
    }
    at.min(LAST_COLUMN)
}

// The display column behind the number cells of a highlighter that begin at one, but none further than 2^31.
fn painter_behind<P: Pattern>(
    painter: &Painter<P>,
    lines: usize,
    column: u32,
    tabstop: Tabstop,
) -> u32
    requires { column ≤ 2 ^ 31 }
    ensures value { result ≡ min (painter_behind tabstop.columns lines column (paints_of P.source painter.now)) (2 ^ 31) }
    ensures small { result ≤ 2 ^ 31 }
{
    match painter {
        Painter::NumberLines(_, separator) => {
            behind(separator.as_slice(), column + digits(lines), tabstop)
        }
        _ => column,
    }
}

// The display column behind the number cells of the highlighters of a scope that begin at one, but none further than 2^31.
fn scope_behind<P: Pattern>(
    rows: &[HighlighterRow<P>],
    scope: Scope,
    lines: usize,
    column: u32,
    tabstop: Tabstop,
) -> u32
    requires { column ≤ 2 ^ 31 }
    ensures value { result ≡ min (numbers_behind tabstop.columns lines column (painting_at scope rows.now)) (2 ^ 31) }
    ensures small { result ≤ 2 ^ 31 }
{
    let mut at = column;
    for row in rows {
        if !is_of_scope(row, scope) {
            continue;
        }
        at = painter_behind(&row.painter, lines, at, tabstop);
    }
    at
}

impl<P: Pattern> Highlighters<P> {
    /// How many cells the number cells of lines take, as a client is shown them in a buffer of so many lines: those of each
    /// highlighter that numbers lines stand behind those of the one before it. The count stands still at 2^31.
    pub fn gutter(&self, viewer: Viewer, lines: usize, tabstop: Tabstop) -> u32
        ensures { result ≡ gutter_of tabstop.columns lines (painting viewer.buffer viewer.client self.now) }
    {
        let outer = Scope::Buffer(viewer.buffer);
        let own = Scope::Window(viewer.client, viewer.buffer);
        let rows = self.rows.as_slice();
        let global = scope_behind(rows, Scope::Global, lines, 0, tabstop);
        let shared = scope_behind(rows, outer, lines, global, tabstop);
        scope_behind(rows, own, lines, shared, tabstop)
    }
}
