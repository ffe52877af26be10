//! The objects of all kinds.

ghost use Rattle.std.specs.Prelude.{◌≡◌, ◌≤◌};
ghost use Rattle.list_model.specs.Ranges.{cursor};
ghost use Rattle.selection_set.specs.Inside.{range_of, IsInside};
ghost use Rattle.motion_keys.specs.Words.{EndsAre};
ghost use Rattle.text_objects.specs.Objects.{inner, around};

use crate::bracket_objects::{around_brackets, inner_brackets};
use crate::kinds::Object;
use crate::line_objects::{around_indent, around_paragraph, inner_indent, inner_paragraph};
use crate::quote_objects::{around_quotes, inner_quotes};
use crate::run_objects::{
    around_blanks, around_number, around_word, inner_blanks, inner_number, inner_word,
};
use crate::sentence_objects::{around_sentence, inner_sentence};
use line_buffer::Lines;
use selection_set::{Pair, Sel};
use window_view::Tabstop;

/// The object of a kind that the cursor is in, from its first to its last character. Lines are indented by a tab stop at
/// each `tabstop` columns. None where the cursor is in no such object, or where nothing stands between brackets or
/// quotes. What it costs is said at the call of each kind.
pub fn inner(lines: &Lines, sel: &Sel, object: Object, tabstop: Tabstop) -> Option<Pair>
    requires inside { IsInside lines.now sel.now }
    ensures gives { EndsAre lines.now result (inner object lines.now (cursor (range_of lines.now sel.now)) tabstop.columns) }
{
    match object {
        Object::Word => inner_word(lines, sel, false),
        Object::BigWord => inner_word(lines, sel, true),
        Object::Paragraph => inner_paragraph(lines, sel),
        Object::Sentence => inner_sentence(lines, sel),
        Object::Blanks => inner_blanks(lines, sel),
        Object::Indent => inner_indent(lines, sel, tabstop),
        Object::Number => inner_number(lines, sel),
        Object::Round => inner_brackets(lines, sel, '(', ')'),
        Object::Curly => inner_brackets(lines, sel, '{', '}'),
        Object::Square => inner_brackets(lines, sel, '[', ']'),
        Object::Angle => inner_brackets(lines, sel, '<', '>'),
        Object::DoubleQuote => inner_quotes(lines, sel, '"'),
        Object::Quote => inner_quotes(lines, sel, '\''),
        Object::Grave => inner_quotes(lines, sel, '`'),
    }
}

/// The same with what belongs to it: the blanks, empty lines or newlines at it, the sign, the brackets or the quotes.
pub fn around(lines: &Lines, sel: &Sel, object: Object, tabstop: Tabstop) -> Option<Pair>
    requires inside { IsInside lines.now sel.now }
    ensures gives { EndsAre lines.now result (around object lines.now (cursor (range_of lines.now sel.now)) tabstop.columns) }
{
    match object {
        Object::Word => around_word(lines, sel, false),
        Object::BigWord => around_word(lines, sel, true),
        Object::Paragraph => around_paragraph(lines, sel),
        Object::Sentence => around_sentence(lines, sel),
        Object::Blanks => around_blanks(lines, sel),
        Object::Indent => around_indent(lines, sel, tabstop),
        Object::Number => around_number(lines, sel),
        Object::Round => around_brackets(lines, sel, '(', ')'),
        Object::Curly => around_brackets(lines, sel, '{', '}'),
        Object::Square => around_brackets(lines, sel, '[', ']'),
        Object::Angle => around_brackets(lines, sel, '<', '>'),
        Object::DoubleQuote => around_quotes(lines, sel, '"'),
        Object::Quote => around_quotes(lines, sel, '\''),
        Object::Grave => around_quotes(lines, sel, '`'),
    }
}
