//! Display columns of a line's characters, and the characters that hold them.

use compact_chars::CharsRef;
use std::test::Fail;
use window_view::{Tabstop, cell_of, offset_at};

#[test]
fn places_have_their_display_columns(rt: HostRuntime) -> Result<(), Fail> {
    let line = CharsRef::Wide(&['a', '\t', '漢', 'e', '\u{301}', '😀', '\u{1B}', '\n']);
    let columns = [0, 1, 8, 10, 11, 11, 13, 14, 15];
    for (i, column) in columns.iter().enumerate() {
        assert!(rt; i <= line.len());
        assert_eq!(rt; cell_of(line, i, Tabstop { columns: 8 }), *column, "at {i}");
    }
    Ok(())
}

#[test]
fn cells_lead_to_the_characters_that_hold_them(rt: HostRuntime) -> Result<(), Fail> {
    let line = CharsRef::Wide(&['a', '\t', '漢', 'e', '\u{301}', 'b', '\n']);
    let rows = [
        (0, Some(0)),
        (1, Some(1)),
        (3, Some(1)),
        (4, Some(2)),
        (5, Some(2)),
        (6, Some(3)),
        (7, Some(5)),
        (8, Some(6)),
        (9, None),
        (u32::MAX, None),
    ];
    for (cell, holder) in rows {
        assert_eq!(rt;
            offset_at(line, cell, Tabstop { columns: 4 }),
            holder,
            "at {cell}"
        );
    }
    assert_eq!(rt;
        offset_at(CharsRef::Narrow(&[]), 0, Tabstop { columns: 4 }),
        None
    );
    Ok(())
}
