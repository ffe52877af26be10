//! A window and its moves.

ghost use Rattle.std.specs.Prelude.{◌≡◌, ◌+◌, ◌^◌, ◌<◌, ◌≤◌};
ghost use Rattle.window_view.specs.View.{View, followed};

use crate::corner::Corner;
use crate::size::Size;

/// A window: its first line and its first display column, both from 0, and its size, each number from 1 to 1,000.
#[derive(Clone, Copy, Debug, PartialEq, Eq)]
pub struct Window {
    pub top: u32,
    pub left: u32,
    pub rows: u16,
    pub columns: u16,
    ghost some_rows: { 1 ≤ rows },
    ghost few_rows: { rows ≤ 1000 },
    ghost some_columns: { 1 ≤ columns },
    ghost few_columns: { columns ≤ 1000 },
}

impl Window {
    ghost use Rattle.window_view.specs.Views.{window_seen};
    ghost use Rattle.window_view.specs.Sizes.{view_at, corner_of};

    /// The window of a size at a corner.
    pub fn of(corner: Corner, size: Size) -> Window
        ensures { window_seen result ≡ view_at corner size }
    {
        Window {
            top: corner.top,
            left: corner.left,
            rows: size.rows(),
            columns: size.columns(),
        }
    }

    /// Where it stands.
    pub fn corner(&self) -> Corner
        ensures { result ≡ corner_of (window_seen self.now) }
    {
        Corner {
            top: self.top,
            left: self.left,
        }
    }

    /// Moves by the least amount that has the cursor's line and its cells in the part that the text has: `column` is
    /// the display column of its first cell, `width` the number of its cells, and `gutter` the number of cells that
    /// stand before the text.
    pub fn follow(&mut self, line: u32, column: u32, width: u32, gutter: u32)
        requires { column + width < 2 ^ 32 }
        ensures { window_seen self.new ≡ followed (window_seen self.old) line column width gutter }
    {
        let rows = u32::from(self.rows);
        if line < self.top {
            self.top = line;
        } else if line - self.top >= rows {
            self.top = line - (rows - 1);
        }
        let part = u32::from(self.columns).saturating_sub(gutter).max(1);
        let cells = width.max(1);
        if column < self.left {
            self.left = column;
        } else if u64::from(column) + u64::from(cells) > u64::from(self.left) + u64::from(part) {
            self.left = column - (part - cells.min(part));
        }
    }
}
