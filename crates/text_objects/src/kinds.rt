//! The kinds of objects.

/// What is looked for at the cursor.
#[derive(Clone, Copy, PartialEq, Eq, Debug)]
pub enum Object {
    /// A run of characters of class Word.
    Word,
    /// The same, where marks count as parts of words.
    BigWord,
    /// A run of lines that aren't empty.
    Paragraph,
    /// A sentence of a paragraph.
    Sentence,
    /// A run of blanks.
    Blanks,
    /// A run of lines that are indented at least as the cursor's.
    Indent,
    /// A run of ASCII digits.
    Number,
    /// What stands between `(` and `)`.
    Round,
    /// What stands between `{` and `}`.
    Curly,
    /// What stands between `[` and `]`.
    Square,
    /// What stands between `<` and `>`.
    Angle,
    /// What stands between two `"` of a line.
    DoubleQuote,
    /// What stands between two `'` of a line.
    Quote,
    /// What stands between two grave marks of a line.
    Grave,
}
