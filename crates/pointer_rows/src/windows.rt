//! Which lines a window shows, and where it goes.

ghost use Rattle.std.specs.Prelude.{◌≡◌, ◌<◌, ◌≤◌};
ghost use Rattle.window_view.specs.Views.{window_seen};
ghost use Rattle.pointer_rows.specs.Windows.{top_by, shows_line, nearest_shown};

use kak_text::MAX_CHARS;
use window_view::Window;

/// The first line of a window that goes so many lines on, or back, among so many lines.
pub(crate) fn top_by(count: usize, top: u32, lines: i32) -> u32
    requires some { 0 < count }
    requires few { count ≤ MAX_CHARS }
    ensures value { result ≡ top_by count top lines }
    ensures there { result < count }
{
    let last = (count - 1) as u32;
    if lines < 0 {
        return top.saturating_sub(lines.unsigned_abs()).min(last);
    }
    top.saturating_add(lines.unsigned_abs()).min(last)
}

/// Whether a window shows a line.
pub(crate) fn shows_line(window: &Window, line: u32) -> bool
    ensures { result ≡ shows_line (window_seen window.now) line }
{
    window.top <= line && u64::from(line) < u64::from(window.top) + u64::from(window.rows)
}

/// The line that a window shows nearest to one that it doesn't show.
pub(crate) fn nearest_shown(count: usize, window: &Window, line: u32) -> u32
    requires top { window.now.top < count }
    requires few { count ≤ MAX_CHARS }
    ensures value { result ≡ nearest_shown count (window_seen window.now) line }
    ensures there { result < count }
{
    if line < window.top {
        return window.top;
    }
    let last = (count - 1) as u32;
    (window.top + u32::from(window.rows) - 1).min(last)
}
