//! Selections that change their shape by themselves.

ghost use Rattle.std.specs.Prelude.{◌≡◌, ℕ, List};
ghost use Rattle.selection_set.specs.Inside.{range_of, IsInside};
ghost use Rattle.text_model.specs.Texts.{IsPlace, offset};
ghost use Rattle.list_model.specs.Ranges.{only};
ghost use Rattle.key_rows.specs.Each.{newline_of, reshaped};

use kak_text::Coord;
use line_buffer::Lines;
use selection_set::Sel;

/// What becomes of each selection by itself, without a motion.
#[derive(Clone, Copy, PartialEq, Eq, Debug)]
pub enum Shape {
    /// All of its lines.
    Lines,
    /// The character at its cursor.
    Cursor,
    /// Its cursor and its anchor change places.
    Turned,
    /// Its cursor is at its last character.
    Straight,
    /// Its cursor is at its first character; one of one character is straight.
    AtStart,
    /// The newline of its last line.
    LastNewline,
    /// The newline of its cursor's line.
    CursorNewline,
    /// It is straight, with its cursor behind its last character, or at the text's last one.
    OneFurther,
    /// Where it is straight and has more than one character, its cursor goes back by one.
    OneBack,
}

// All lines of a selection.
fn whole_lines(lines: &Lines, sel: Sel) -> Sel
    requires { IsInside lines.now sel }
    ensures inside { IsInside lines.now result }
    ensures lines { range_of lines.now result ≡ reshaped Shape.Lines lines.now (range_of lines.now sel) }
{
    let end = lines.line(sel.high.line as usize).len() - 1;
    Sel {
        low: Coord {
            line: sel.low.line,
            column: 0,
        },
        high: Coord {
            line: sel.high.line,
            column: end as u32,
        },
        turned: sel.turned,
        target: None,
    }
}

// A selection with its cursor at its first character.
fn turned_to_start(sel: Sel) -> Sel
    ensures inside { (text : List ℕ) → IsInside text sel → IsInside text result }
    ensures turns { (text : List ℕ) → IsInside text sel → range_of text result ≡ reshaped Shape.AtStart text (range_of text sel) }
{
    Sel {
        low: sel.low,
        high: sel.high,
        turned: !sel.high.is_at_most(sel.low),
        target: sel.target,
    }
}

// The newline of a line.
fn newline_of(lines: &Lines, at: Coord) -> Sel
    requires { IsPlace lines.now at }
    ensures inside { IsInside lines.now result }
    ensures newline { range_of lines.now result ≡ only (newline_of lines.now (offset lines.now at)) }
{
    Sel::only(lines.line_end(at.line))
}

// A straight selection with its cursor behind its last character, or at the text's last one.
fn one_further(lines: &Lines, sel: Sel) -> Sel
    requires { IsInside lines.now sel }
    ensures inside { IsInside lines.now result }
    ensures further { range_of lines.now result ≡ reshaped Shape.OneFurther lines.now (range_of lines.now sel) }
{
    let high = match lines.next(sel.high) {
        Some(next) => next,
        None => sel.high,
    };
    Sel {
        low: sel.low,
        high,
        turned: false,
        target: None,
    }
}

// A selection whose cursor went back by one, where it is straight and has more than one character.
fn one_back(lines: &Lines, sel: Sel) -> Sel
    requires { IsInside lines.now sel }
    ensures inside { IsInside lines.now result }
    ensures back { range_of lines.now result ≡ reshaped Shape.OneBack lines.now (range_of lines.now sel) }
{
    if sel.turned || sel.high.is_at_most(sel.low) {
        return sel;
    }
    match lines.prev(sel.high) {
        None => sel,
        Some(high) => Sel {
            low: sel.low,
            high,
            turned: false,
            target: None,
        },
    }
}

/// A selection in another shape.
pub fn reshape(lines: &Lines, sel: Sel, shape: Shape) -> Sel
    requires { IsInside lines.now sel }
    ensures inside { IsInside lines.now result }
    ensures shapes { range_of lines.now result ≡ reshaped shape lines.now (range_of lines.now sel) }
{
    match shape {
        Shape::Lines => whole_lines(lines, sel),
        Shape::Cursor => Sel::only(sel.cursor()),
        Shape::Turned => Sel {
            low: sel.low,
            high: sel.high,
            turned: !sel.turned,
            target: sel.target,
        },
        Shape::Straight => Sel {
            low: sel.low,
            high: sel.high,
            turned: false,
            target: sel.target,
        },
        Shape::AtStart => turned_to_start(sel),
        Shape::LastNewline => newline_of(lines, sel.high),
        Shape::CursorNewline => newline_of(lines, sel.cursor()),
        Shape::OneFurther => one_further(lines, sel),
        Shape::OneBack => one_back(lines, sel),
    }
}
