//! Columns by bytes and by characters, as the places of selections tell and mean them.

use command_forms::{ArgumentPlace, Columns, Described};
use kak_text::{Chars, Coord, Text};
use line_buffer::Lines;
use selection_set::Sel;
use selection_texts::{pair_meant, told};
use std::alloc::Global;
use std::process::Abort;
use std::test::Fail;

fn lines(alloc: Global, text: &str) -> Result<Lines, Fail> {
    let chars = Chars::from_str(alloc, text)?;
    let text = Text::of_chars(alloc, chars.as_slice())?;
    Ok(Lines::of_text(alloc, &text)?)
}

// How many bytes are told to stand before the character at a column of the only line.
fn told_before<R: Abort>(rt: &R, lines: &Lines, column: usize) -> u32 {
    assert!(rt; column < lines.len());
    let place = told(lines, Columns::Bytes, Sel::only(lines.coord_of(column))).cursor;
    assert_eq!(rt; place.line, 1);
    assert!(rt; 0 < place.column);
    place.column - 1
}

// The character that a byte of the first line is taken to mean, from 0.
fn meant(lines: &Lines, byte: u32) -> Coord {
    let place = ArgumentPlace {
        line: 1,
        column: byte.saturating_add(1),
    };
    let described = Described {
        anchor: place,
        cursor: place,
    };
    pair_meant(lines, Columns::Bytes, described).cursor
}

#[test]
fn bytes_and_characters_lead_to_each_other(rt: HostRuntime) -> Result<(), Fail> {
    let alloc = rt.alloc();
    let begins: [(&str, &[u32]); 4] = [
        ("aé漢😀\n", &[0, 1, 3, 6, 10]),
        ("aé漢😀x\n", &[0, 1, 3, 6, 10, 11]),
        ("aéb\n", &[0, 1, 3, 4]),
        ("aébx\n", &[0, 1, 3, 4, 5]),
    ];
    for (text, columns) in begins {
        let lines = lines(alloc, text)?;
        for (i, begin) in columns.iter().enumerate() {
            assert_eq!(rt; told_before(&rt, &lines, i), *begin, "at {i} of {text}");
        }
    }
    let holders: [(&str, &[u32]); 2] = [
        ("aé漢😀\n", &[0, 1, 1, 2, 2, 2, 3, 3, 3, 3, 4, 4, 4]),
        ("aéb\n", &[0, 1, 1, 2, 3, 3]),
    ];
    for (text, columns) in holders {
        let lines = lines(alloc, text)?;
        for (byte, column) in columns.iter().enumerate() {
            let holder = Coord {
                line: 0,
                column: *column,
            };
            assert_eq!(rt; meant(&lines, byte as u32), holder, "at {byte} of {text}");
        }
    }
    let last = Coord { line: 0, column: 4 };
    assert_eq!(rt; meant(&lines(alloc, "aé漢😀\n")?, u32::MAX), last);
    Ok(())
}
