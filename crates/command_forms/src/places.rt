//! Selections as the words of commands describe them.

use sequences::Seq;

/// What columns count.
#[derive(Clone, Copy, PartialEq, Eq, Debug)]
pub enum Columns {
    Bytes,
    Characters,
}

/// A place of a text: its line and its column, both from 1.
#[derive(Clone, Copy, PartialEq, Eq, Debug)]
pub struct ArgumentPlace {
    pub line: u32,
    pub column: u32,
}

/// A selection by the places of its anchor and its cursor.
#[derive(Clone, Copy, PartialEq, Eq, Debug)]
pub struct Described {
    pub anchor: ArgumentPlace,
    pub cursor: ArgumentPlace,
}

/// Descriptions of selections.
pub type Descriptions = Seq<Described>;

/// What is to be selected: ranges, of which the first is the main one, and what their columns count.
#[derive(Drop, Debug)]
pub struct Selection {
    pub columns: Columns,
    pub ranges: Descriptions,
}
