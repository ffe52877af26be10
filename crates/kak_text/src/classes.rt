//! The classes of characters.

/// What a character is to word motions.
#[derive(Clone, Copy, PartialEq, Eq, Debug)]
pub enum Class {
    /// The newline.
    Line,
    /// The tab, and the characters of general category Zs.
    Blank,
    /// The low line, alphabetic characters, and the numbers of general categories Nd, Nl and No.
    Word,
    /// All others.
    Mark,
}

impl Class {
    ghost use Rattle.std.specs.Prelude.{◌≡◌};
    ghost use Rattle.kak_text.specs.Classes.{wide, is_same};

    /// The class for words that end at blanks and newlines alone: marks count as parts of words.
    pub fn wide(self) -> Class
        ensures { result ≡ wide self }
    {
        match self {
            Class::Mark => Class::Word,
            other => other,
        }
    }

    /// Whether it is that class.
    pub fn is(self, other: Class) -> bool
        ensures { result ≡ is_same self other }
    {
        match (self, other) {
            (Class::Line, Class::Line) => true,
            (Class::Blank, Class::Blank) => true,
            (Class::Word, Class::Word) => true,
            (Class::Mark, Class::Mark) => true,
            _ => false,
        }
    }
}
