//! What of a text is drawn, and how.

ghost use Rattle.std.specs.Prelude.{◌≡◌, ◌+◌, ◌-◌, ◌≤◌, min, length};
ghost use Rattle.text_model.specs.Texts.{line_count};
ghost use Rattle.window_view.specs.Views.{window_seen};
ghost use Rattle.line_painting.specs.Lines.{text_part};
ghost use Rattle.line_painting.specs.Painting.{lines_in};

use face_texts::Palette;
use highlight_paint::{LineNumbers, LinePart};
use line_buffer::Lines;
use selection_set::Sels;
use window_view::{Size, Tabstop, Window};

/// The window by which lines are cut, which is the part that the text has, with its tab stops; and whether whitespace is
/// drawn by signs.
#[derive(Clone, Copy, Debug)]
pub struct WindowFrame {
    pub window: Window,
    pub tabstop: Tabstop,
    pub signs: bool,
}

/// A text with selections, and how its lines are drawn: by the window and the faces of names, with the numbers before the
/// lines, of which those of the main cursor's line may be seen in another face.
#[derive(Clone, Copy)]
pub struct Scene<'a> {
    pub lines: &'a Lines,
    pub sels: &'a Sels,
    pub frame: WindowFrame,
    pub palette: &'a Palette,
    pub numbers: &'a [LineNumbers<'a>],
    pub cursor_line: u32,
}

/// The part of a window that the text has, where so many number cells stand before it: it has the other columns, but at
/// least one.
pub fn text_part(window: Window, gutter: u32) -> Window
    ensures { window_seen result ≡ text_part (window_seen window) gutter }
{
    let columns = u32::from(window.columns).saturating_sub(gutter);
    Window::of(
        window.corner(),
        Size::new_within(window.rows, columns as u16),
    )
}

/// The lines of a text that a window shows, as many as there are.
pub fn part_in(lines: &Lines, window: Window) -> LinePart<'_>
    ensures lines { result.lines.now ≡ lines.now }
    ensures top { result.top ≡ min (line_count lines.now) window.top }
    ensures below { result.below ≡ min (line_count lines.now) (result.top + window.rows) }
    ensures ordered { result.top ≤ result.below }
    ensures there { result.below ≤ line_count lines.now }
    ensures count { result.below - result.top ≡ length (lines_in (window_seen window) lines.now) }
{
    let count = lines.line_count();
    let top = count.min(window.top as usize);
    LinePart {
        lines,
        top,
        below: count.min(top + usize::from(window.rows)),
    }
}
