//! The places that have a name.

/// A place of the text, of the cursor's line or of the window. A line beyond the last one means the last line.
#[derive(Clone, Copy, PartialEq, Eq, Debug)]
pub enum Place {
    /// The first character of the text.
    First,
    /// The first character of the last line.
    LastLine,
    /// The last character of the text.
    Last,
    /// The first character of the cursor's line.
    LineStart,
    /// The last character of the cursor's line before its newline, or the newline of an empty line.
    LineEnd,
    /// The first character of the cursor's line that is no blank.
    NonBlank,
    /// The first character of the window's first line.
    WindowTop,
    /// The first character of the line half the window's rows below its first line.
    WindowMiddle,
    /// The first character of the window's last line.
    WindowBottom,
    /// The first character of a line, by its number from 0.
    Line(u32),
}

/// A part of the cursor's line.
#[derive(Clone, Copy, PartialEq, Eq, Debug)]
pub enum LinePart {
    /// From the cursor to the line's first character.
    ToStart,
    /// From the cursor to the last character before the newline, or to the newline of an empty line.
    ToEnd,
}
