//! Which class a character has.

ghost use Rattle.std.specs.Prelude.{◌≡◌};
ghost use Rattle.kak_text.specs.Classes.{class_of, is_blank, is_number, is_in_word};

use crate::classes::Class;
use unicode::properties::{GeneralCategory, is_alphabetic};

// Whether a character is a tab or a space.
fn is_blank(c: char) -> bool
    ensures { result ≡ is_blank c }
{
    c == '\t' || GeneralCategory::for_char(c) == GeneralCategory::SpaceSeparator
}

// Whether a character has a number's general category.
fn is_number(c: char) -> bool
    ensures { result ≡ is_number c }
{
    let category = GeneralCategory::for_char(c);
    category == GeneralCategory::DecimalNumber
        || category == GeneralCategory::LetterNumber
        || category == GeneralCategory::OtherNumber
}

// Whether words are made of a character.
fn is_in_word(c: char) -> bool
    ensures { result ≡ is_in_word c }
{
    c == '_' || is_alphabetic(c) || is_number(c)
}

/// The class of a character.
pub fn class(c: char) -> Class
    ensures { result ≡ class_of c }
{
    if c == '\n' {
        return Class::Line;
    }
    if is_blank(c) {
        return Class::Blank;
    }
    if is_in_word(c) {
        return Class::Word;
    }
    Class::Mark
}
