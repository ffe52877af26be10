//! What is erased at selections, where characters are put, and whether lines get blanks or lose them.

/// What is erased at a selection.
#[derive(Clone, Copy, PartialEq, Eq, Debug)]
pub enum Erase {
    /// Its characters.
    Selection,
    /// The character before its cursor, where there is one.
    BeforeCursor,
    /// The character at its cursor.
    AtCursor,
}

/// Where characters are put at a selection.
#[derive(Clone, Copy, PartialEq, Eq, Debug)]
pub enum Put {
    /// Before its first character; whole lines before its first line.
    Before,
    /// Behind its last character; whole lines behind its last line.
    After,
    /// In the place of its characters.
    Over,
    /// Before its cursor.
    BeforeCursor,
}

/// Whether lines get blanks at their start, or lose them.
#[derive(Clone, Copy, PartialEq, Eq, Debug)]
pub enum Indent {
    /// They get some.
    More,
    /// They lose some.
    Less,
}
