//! How the rows of lists and of changes are written.

// A coordinate.
macro_rules! at {
    ($line:literal, $column:literal) => {
        Coord {
            line: $line,
            column: $column,
        }
    };
}

// A selection, from its first to its last character.
macro_rules! straight {
    ($low:expr, $high:expr) => {
        Sel {
            low: $low,
            high: $high,
            turned: false,
            target: None,
        }
    };
}

// A turned selection with a target.
macro_rules! turned {
    ($low:expr, $high:expr) => {
        Sel {
            low: $low,
            high: $high,
            turned: true,
            target: Some(7),
        }
    };
}

// Characters put in between two coordinates, and the last place behind that.
macro_rules! typed {
    ($begin:expr, $end:expr, $last:expr) => {
        Shift {
            insert: true,
            begin: $begin,
            end: $end,
            last: $last,
        }
    };
}

// Characters taken out between two coordinates, and the last place behind that.
macro_rules! erased {
    ($begin:expr, $end:expr, $last:expr) => {
        Shift {
            insert: false,
            begin: $begin,
            end: $end,
            last: $last,
        }
    };
}

pub(crate) use at;
pub(crate) use erased;
pub(crate) use straight;
pub(crate) use turned;
pub(crate) use typed;
