//! How many rows and columns the windows of a client have.

ghost use Rattle.std.specs.Prelude.{◌≡◌, ◌≤◌};
ghost use Rattle.window_view.specs.Sizes.{first_size, sized, within_bounds};

use std::marker::Model;

/// How many rows, and how many columns, a window has at most.
pub const MAX_SIDE: u64 = 1_000;

/// A number of rows or columns, brought into those that a window may have: 1 to 1,000.
pub fn within_bounds(number: u64) -> u16
    ensures { result ≡ within_bounds number }
{
    number.min(MAX_SIDE).max(1) as u16
}

/// How many rows and columns each window of a client has, also one that is opened later: each number is from 1 to 1,000.
#[derive(Clone, Copy, Debug, PartialEq, Eq)]
pub struct Size {
    rows: u16,
    columns: u16,
}

impl Model for Size {
    ghost use Rattle.std.specs.Prelude.{◌≤◌};
    ghost use Rattle.window_view.specs.Sizes.{Dimensions};

    ghost Value = { Dimensions };

    ghost view = { λ s. record { rows = s.rows; columns = s.columns } };

    ghost invariant = { λ s. (1 ≤ s.rows) × (s.rows ≤ 1000) × (1 ≤ s.columns) × (s.columns ≤ 1000) };

    ghost inverse = { λ d. record { rows = d.rows; columns = d.columns } };
}

impl Size {
    /// The size until its client tells another: 24 rows and 80 columns.
    pub fn first() -> Size
        ensures { result ≡ first_size }
    {
        Size {
            rows: 24,
            columns: 80,
        }
    }

    /// So many rows and columns, each brought into 1 to 1,000.
    pub fn new_within(rows: u16, columns: u16) -> Size
        ensures { result ≡ sized rows columns }
    {
        Size {
            rows: within_bounds(u64::from(rows)),
            columns: within_bounds(u64::from(columns)),
        }
    }

    /// How many rows it has.
    pub fn rows(&self) -> u16
        ensures value { result ≡ self.now.rows }
        ensures some { 1 ≤ result }
        ensures few { result ≤ 1000 }
    {
        self.rows
    }

    /// How many columns it has.
    pub fn columns(&self) -> u16
        ensures value { result ≡ self.now.columns }
        ensures some { 1 ≤ result }
        ensures few { result ≤ 1000 }
    {
        self.columns
    }
}
