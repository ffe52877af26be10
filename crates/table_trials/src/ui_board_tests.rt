//! Boxes and a board, as a program uses them.

use drawings::{Atom, Atoms, Cursor, Drawing, DrawnLine, DrawnLines, Info, Refusal};
use json_writing::encode_drawing;
use kak_faces::{Face, StandardFace};
use kak_text::Chars;
use std::alloc::{AllocError, Global};
use std::test::Fail;
use ui_board::{Board, JsonUi, ScreenUi, SilentUi, Ui};

const KEY_1: &str =
    "{\"error\":{\"code\":-32602,\"message\":\"Key 1\"},\"id\":null,\"jsonrpc\":\"2.0\"}\n";

const PARSE: &str =
    "{\"error\":{\"code\":-32700,\"message\":\"Parse\"},\"id\":null,\"jsonrpc\":\"2.0\"}\n";

fn empty_line(alloc: Global) -> DrawnLine {
    DrawnLine {
        atoms: Atoms::new(alloc),
    }
}

fn drawing(alloc: Global, column: u32) -> Drawing {
    Drawing {
        first: false,
        lines: DrawnLines::new(alloc),
        default_face: Face::DEFAULT,
        padding_face: StandardFace::BufferPadding.face(),
        status: empty_line(alloc),
        mode_line: empty_line(alloc),
        status_face: StandardFace::StatusLine.face(),
        cursor: Cursor {
            prompt: false,
            line: 0,
            column,
        },
        info: Info::Keep,
    }
}

#[test]
fn a_json_box_reports_drawings_and_refusals_in_order(rt: HostRuntime) -> Result<(), Fail> {
    let alloc = rt.alloc();
    let mut ui = JsonUi::new(alloc);
    assert!(rt; ui.report(alloc)?.is_empty());
    ui.refuse(alloc, Refusal::Key(1))?;
    ui.show(alloc, &drawing(alloc, 7))?;
    ui.refuse(alloc, Refusal::Parse)?;
    let mut wanted = Vec::from_slice(alloc, KEY_1.as_bytes())?;
    encode_drawing(&drawing(alloc, 7), &mut wanted)?;
    wanted.extend_from_slice(PARSE.as_bytes())?;
    assert!(rt; ui.report(alloc)?.as_slice() == wanted.as_slice());
    Ok(())
}

#[test]
fn a_silent_box_reports_nothing(rt: HostRuntime) -> Result<(), Fail> {
    let alloc = rt.alloc();
    let mut ui = SilentUi::new(alloc);
    ui.show(alloc, &drawing(alloc, 0))?;
    ui.refuse(alloc, Refusal::Method)?;
    assert!(rt; ui.report(alloc)?.is_empty());
    Ok(())
}

// A drawing of these lines, each in one atom.
fn drawing_of(alloc: Global, lines: &[&str]) -> Result<Drawing, AllocError> {
    let mut shown = drawing(alloc, 0);
    for line in lines {
        let mut atoms = Atoms::new(alloc);
        atoms.push(Atom {
            contents: Chars::from_str(alloc, *line)?,
            face: Face::DEFAULT,
        })?;
        shown.lines.push(DrawnLine { atoms })?;
    }
    Ok(shown)
}

#[test]
fn a_screen_reports_the_lines_of_the_last_drawing(rt: HostRuntime) -> Result<(), Fail> {
    let alloc = rt.alloc();
    let mut ui = ScreenUi::new(alloc);
    assert!(rt; ui.report(alloc)?.is_empty());
    ui.refuse(alloc, Refusal::Method)?;
    assert!(rt; ui.report(alloc)?.is_empty());
    ui.show(alloc, &drawing_of(alloc, &["gone\n", "too\n"])?)?;
    ui.show(alloc, &drawing_of(alloc, &["\u{e9}\n", "cut", ""])?)?;
    ui.refuse(alloc, Refusal::Parse)?;
    assert!(rt; ui.report(alloc)?.as_slice() == "\u{e9}\ncut\n\n".as_bytes());
    Ok(())
}

#[test]
fn a_seat_that_was_left_is_the_next_to_be_taken(rt: HostRuntime) -> Result<(), Fail> {
    let alloc = rt.alloc();
    let mut board = Board::new(alloc);
    let json: Box<dyn Ui> = Box::new(alloc, JsonUi::new(alloc))?;
    let first = board.seat(alloc, json)?;
    assert_eq!(rt; first, 0);
    board.refuse(alloc, first, Refusal::Key(1))?;
    board.tell(alloc, first, &drawing(alloc, 7))?;
    let mut wanted = Vec::from_slice(alloc, KEY_1.as_bytes())?;
    encode_drawing(&drawing(alloc, 7), &mut wanted)?;
    assert!(rt; board.report(alloc, first)?.as_slice() == wanted.as_slice());
    let left = board.unseat(first);
    assert!(rt; left.report(alloc)?.as_slice() == wanted.as_slice());
    let silent: Box<dyn Ui> = Box::new(alloc, SilentUi::new(alloc))?;
    let again = board.seat(alloc, silent)?;
    assert_eq!(rt; again, 0);
    board.refuse(alloc, again, Refusal::Parse)?;
    assert!(rt; board.report(alloc, again)?.is_empty());
    let second = board.seat(alloc, left)?;
    assert_eq!(rt; second, 1);
    assert!(rt; board.report(alloc, second)?.as_slice() == wanted.as_slice());
    Ok(())
}
