//! What a window shows of a character.

ghost use Rattle.std.specs.Prelude.{◌≡◌, ◌==◌, false, [], ◌∷◌, if◌then◌else◌};
ghost use Rattle.window_view.specs.Views.{window_seen};
ghost use Rattle.line_painting.specs.Cells.{is_inside, cells_inside, tab_drawn, newline_drawn, space_drawn, whole_drawn, char_drawn, right_of};
ghost use Rattle.line_painting.specs.Painting.{drawn_chars};

use window_view::Window;

/// What is drawn of a character: at first this one, if there is one, and so many spaces.
#[derive(Clone, Copy, Debug)]
pub struct CharDrawn {
    pub head: Option<char>,
    pub spaces: u64,
}

/// The display column right behind a window.
pub fn right(window: Window) -> u64
    ensures { result ≡ right_of (window_seen window) }
{
    u64::from(window.left) + u64::from(window.columns)
}

// Whether a display column is in a window.
fn is_inside(window: Window, column: u32) -> bool
    ensures { result ≡ is_inside (window_seen window) column }
{
    window.left <= column && u64::from(column) < right(window)
}

// How many of so many cells, the first at a display column, lie in a window.
fn inside(window: Window, column: u32, cells: u32) -> u64
    ensures { result ≡ cells_inside (window_seen window) column cells }
{
    let end = (u64::from(column) + u64::from(cells)).min(right(window));
    end.saturating_sub(u64::from(column.max(window.left)))
}

// How a tab of so many cells is drawn where it is seen whole.
fn tab(signs: bool, cells: u32) -> CharDrawn
    ensures { drawn_chars result ≡ tab_drawn signs cells }
{
    if signs {
        return CharDrawn {
            head: Some('→'),
            spaces: u64::from(cells.saturating_sub(1)),
        };
    }
    CharDrawn {
        head: None,
        spaces: u64::from(cells),
    }
}

// How a newline is drawn.
fn newline(signs: bool) -> char
    ensures { result ≡ newline_drawn signs }
{
    if signs { '¬' } else { '\n' }
}

// How a space is drawn.
fn space(signs: bool) -> char
    ensures { result ≡ space_drawn signs }
{
    if signs { '·' } else { ' ' }
}

// How a character that is no tab is drawn where it is seen whole.
fn look(signs: bool, c: char) -> char
    ensures { (c == 9) ≡ false → whole_drawn signs c 1 ≡ result ∷ [] }
{
    if c == '\n' {
        return newline(signs);
    }
    if c == ' ' {
        return space(signs);
    }
    if c.is_control() {
        return '\u{FFFD}';
    }
    c
}

// How a character of so many cells is drawn where it is seen whole.
fn whole(signs: bool, c: char, cells: u32) -> CharDrawn
    ensures { drawn_chars result ≡ whole_drawn signs c cells }
{
    if c == '\t' {
        return tab(signs, cells);
    }
    CharDrawn {
        head: Some(look(signs, c)),
        spaces: 0,
    }
}

// What is drawn of a character without cells that begins at a display column.
fn mark(window: Window, column: u32, c: char) -> CharDrawn
    ensures { drawn_chars result ≡ (if is_inside (window_seen window) column then c ∷ [] else []) }
{
    if is_inside(window, column) {
        return CharDrawn {
            head: Some(c),
            spaces: 0,
        };
    }
    CharDrawn {
        head: None,
        spaces: 0,
    }
}

/// What is drawn of a character that begins at a display column and has so many cells.
pub fn char_drawn(window: Window, signs: bool, column: u32, cells: u32, c: char) -> CharDrawn
    ensures { drawn_chars result ≡ char_drawn signs (window_seen window) column cells c }
{
    if cells == 0 {
        return mark(window, column, c);
    }
    let seen = inside(window, column, cells);
    if seen == u64::from(cells) {
        return whole(signs, c, cells);
    }
    CharDrawn {
        head: None,
        spaces: seen,
    }
}
