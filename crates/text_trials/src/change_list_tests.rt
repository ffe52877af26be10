//! Changes that are taken back.

use change_list::{Change, inverse};
use kak_text::{Chars, Coord, Shift};
use std::test::Fail;

const fn coord(line: u32, column: u32) -> Coord {
    Coord { line, column }
}

// The insertion of one character at the begin of a line.
const fn typed(line: u32) -> Shift {
    Shift {
        insert: true,
        begin: coord(line, 0),
        end: coord(line, 1),
        last: coord(line, 1),
    }
}

#[test]
fn a_change_is_taken_back_by_the_other_kind(rt: HostRuntime) -> Result<(), Fail> {
    let change = Change {
        shift: typed(3),
        chars: Chars::from_str(rt.alloc(), "a")?,
    };
    let shift = inverse(&change, coord(3, 0));
    assert!(rt; !shift.insert);
    assert_eq!(rt; shift.begin, coord(3, 0));
    assert_eq!(rt; shift.end, coord(3, 1));
    assert_eq!(rt; shift.last, coord(3, 0));
    Ok(())
}
