//! A client's lines: what they ask for, and what it is sent.

use crate::client_lines::{EMPTY, OPTIONS};
use json_ui::{
    Atom, Atoms, Button, Coord, Cursor, Drawing, DrawnLine, DrawnLines, Info, LineError, MAX_LINE,
    Mouse, Refusal, Request, decode_line, encode_drawing, encode_refusal,
};
use kak_faces::{Face, StandardFace};
use kak_text::Chars;
use std::alloc::{AllocError, Global};
use std::test::Fail;

// A line of one atom.
fn line(alloc: Global, text: &str, face: Face) -> Result<DrawnLine, AllocError> {
    let mut atoms = Atoms::new(alloc);
    let contents = Chars::from_str(alloc, text)?;
    atoms.push(Atom { contents, face })?;
    Ok(DrawnLine { atoms })
}

// The first drawing of an empty buffer.
fn first_drawing(alloc: Global) -> Result<Drawing, AllocError> {
    let status_face = StandardFace::StatusLine.face();
    let mut lines = DrawnLines::new(alloc);
    lines.push(line(alloc, "\n", StandardFace::PrimaryCursorEol.face())?)?;
    Ok(Drawing {
        first: true,
        lines,
        default_face: Face::DEFAULT,
        padding_face: StandardFace::BufferPadding.face(),
        status: DrawnLine {
            atoms: Atoms::new(alloc),
        },
        mode_line: line(alloc, "*scratch* 1:1 normal 1/1 - client0", status_face)?,
        status_face,
        cursor: Cursor {
            prompt: false,
            line: 0,
            column: 0,
        },
        info: Info::Keep,
    })
}

// The bytes of the first drawing of an empty buffer.
fn drawn_first(alloc: Global) -> Result<Vec<u8>, AllocError> {
    let drawing = first_drawing(alloc)?;
    let mut out = Vec::new(alloc);
    encode_drawing(&drawing, &mut out)?;
    Ok(out)
}

#[test]
fn the_first_drawing_of_an_empty_buffer_has_five_lines(rt: HostRuntime) -> Result<(), Fail> {
    let drawn = drawn_first(rt.alloc())?;
    let wanted = format!(in rt.alloc(); "{OPTIONS}{EMPTY}")?;
    assert!(rt; drawn.as_slice() == wanted.as_bytes());
    Ok(())
}

// Bytes, and the bytes of a refusal behind them.
fn refused_behind(alloc: Global, before: &[u8], refusal: Refusal) -> Result<Vec<u8>, AllocError> {
    let mut out = Vec::from_slice(alloc, before)?;
    encode_refusal(refusal, &mut out)?;
    Ok(out)
}

#[test]
fn a_refusal_goes_behind_what_was_written(rt: HostRuntime) -> Result<(), Fail> {
    let refused = refused_behind(rt.alloc(), b"x\n", Refusal::Key(1))?;
    let wanted =
        "x\n{\"error\":{\"code\":-32602,\"message\":\"Key 1\"},\"id\":null,\"jsonrpc\":\"2.0\"}\n";
    assert!(rt; refused.as_slice() == wanted.as_bytes());
    Ok(())
}

// What a line asks for: of keys, how many there are, and of a size, its rows and columns.
#[derive(Clone, Copy, PartialEq, Debug)]
enum Asked {
    Nothing,
    Keys(usize),
    Size(u16, u16),
    Scroll(i32, Option<Coord>),
    Mouse(Mouse),
    Menu,
}

// What a line asks for, or why it is refused.
fn asked_by(alloc: Global, line: &[u8]) -> Result<Asked, LineError> {
    match decode_line(alloc, line)? {
        Request::Nothing => Ok(Asked::Nothing),
        Request::Keys(keys) => Ok(Asked::Keys(keys.into_vec().len())),
        Request::Resize(size) => Ok(Asked::Size(size.rows(), size.columns())),
        Request::Scroll(lines, place) => Ok(Asked::Scroll(lines, place)),
        Request::Mouse(mouse) => Ok(Asked::Mouse(mouse)),
        Request::MenuSelect => Ok(Asked::Menu),
    }
}

static LINES: [(&str, Result<Asked, Refusal>); 15] = [
    ("", Ok(Asked::Nothing)),
    (" \t\r", Ok(Asked::Nothing)),
    (
        "{\"jsonrpc\":\"2.0\",\"method\":\"keys\"}",
        Ok(Asked::Keys(0)),
    ),
    (
        "{ \"jsonrpc\": \"2.0\", \"method\": \"keys\", \"params\": [\"ihi<esc>\"] }",
        Ok(Asked::Keys(4)),
    ),
    (
        "{\"method\":\"keys\",\"jsonrpc\":\"2.0\",\"params\":[\"h\"],\"params\":[\"l\",\"lé\"]}",
        Ok(Asked::Keys(3)),
    ),
    ("{\"a\":1e400}", Err(Refusal::Parse)),
    ("\"\\ud800\"", Err(Refusal::Parse)),
    ("\"\t\"", Err(Refusal::Parse)),
    ("7", Err(Refusal::Invalid)),
    (
        "{\"jsonrpc\":2.0,\"method\":\"keys\"}",
        Err(Refusal::Invalid),
    ),
    ("{\"jsonrpc\":\"2.0\",\"method\":[]}", Err(Refusal::Invalid)),
    (
        "{\"jsonrpc\":\"2.0\",\"method\":\"mouse\",\"params\":[2]}",
        Err(Refusal::Method),
    ),
    (
        "{\"jsonrpc\":\"2.0\",\"method\":\"keys\",\"params\":{}}",
        Err(Refusal::Params),
    ),
    (
        "{\"jsonrpc\":\"2.0\",\"method\":\"keys\",\"params\":[\"<x\",1]}",
        Err(Refusal::Params),
    ),
    (
        "{\"jsonrpc\":\"2.0\",\"method\":\"keys\",\"params\":[\"ia\",\"<nope>\"]}",
        Err(Refusal::Key(1)),
    ),
];

#[test]
fn lines_are_read_or_refused_by_the_first_cause(rt: HostRuntime) {
    for &(line, wanted) in &LINES {
        let read = asked_by(rt.alloc(), line.as_bytes());
        assert_eq!(rt; read, wanted.map_err(LineError::Refused), "from {line}");
    }
    assert_eq!(rt;
        asked_by(rt.alloc(), b"\xff"),
        Err(LineError::Refused(Refusal::Parse))
    );
}

#[test]
fn a_line_has_at_most_so_many_bytes_and_levels(rt: HostRuntime) -> Result<(), Fail> {
    let spaces = vec![in rt.alloc(); b' '; MAX_LINE + 1]?;
    let too_long = Err(LineError::Refused(Refusal::TooLong));
    assert_eq!(rt; asked_by(rt.alloc(), spaces.as_slice()), too_long);
    let mut within = spaces;
    within.truncate(MAX_LINE);
    assert_eq!(rt; asked_by(rt.alloc(), within.as_slice()), Ok(Asked::Nothing));
    for (levels, refusal) in [(127, Refusal::Invalid), (128, Refusal::Parse)] {
        let mut nested = vec![in rt.alloc(); b'['; levels]?;
        nested.extend_from_slice(vec![in rt.alloc(); b']'; levels]?.as_slice())?;
        assert_eq!(rt;
            asked_by(rt.alloc(), nested.as_slice()),
            Err(LineError::Refused(refusal))
        );
    }
    Ok(())
}

const PLACE: Coord = Coord { line: 1, column: 2 };

const FARTHEST: Coord = Coord {
    line: u32::MAX,
    column: u32::MAX,
};

const UNFIT: Result<Asked, Refusal> = Err(Refusal::Params);

// Methods, parameters, and what they ask for.
static PARAMETERS: [(&str, &str, Result<Asked, Refusal>); 52] = [
    ("resize", "[10,80]", Ok(Asked::Size(10, 80))),
    ("resize", "[0,0]", Ok(Asked::Size(1, 1))),
    ("resize", "[1000,1001]", Ok(Asked::Size(1000, 1000))),
    ("resize", "[65536,65537]", Ok(Asked::Size(1000, 1000))),
    (
        "resize",
        "[18446744073709551615,1]",
        Ok(Asked::Size(1000, 1)),
    ),
    ("resize", "[18446744073709551616,1]", UNFIT),
    ("resize", "[-1,1]", UNFIT),
    ("resize", "[-0,1]", UNFIT),
    ("resize", "[1.0,1]", UNFIT),
    ("resize", "[1,1e0]", UNFIT),
    ("resize", "[\"1\",1]", UNFIT),
    ("resize", "[]", UNFIT),
    ("resize", "[1]", UNFIT),
    ("resize", "[1,2,3]", UNFIT),
    ("resize", "null", UNFIT),
    ("resize", "{\"0\":1,\"1\":2}", UNFIT),
    ("scroll", "[3]", Ok(Asked::Scroll(3, None))),
    (
        "scroll",
        "[-2147483648,1,2]",
        Ok(Asked::Scroll(i32::MIN, Some(PLACE))),
    ),
    ("scroll", "[2147483647]", Ok(Asked::Scroll(i32::MAX, None))),
    ("scroll", "[2147483648]", UNFIT),
    ("scroll", "[-2147483649]", UNFIT),
    ("scroll", "[-0]", UNFIT),
    ("scroll", "[3.5]", UNFIT),
    ("scroll", "[1,2]", UNFIT),
    ("scroll", "[1,2,-3]", UNFIT),
    ("scroll", "[1,2,3,4]", UNFIT),
    ("scroll", "[\"1\"]", UNFIT),
    ("scroll", "3", UNFIT),
    ("mouse_move", "[1,2]", Ok(Asked::Mouse(Mouse::Move(PLACE)))),
    (
        "mouse_move",
        "[4294967295,4294967295]",
        Ok(Asked::Mouse(Mouse::Move(FARTHEST))),
    ),
    ("mouse_move", "[4294967296,2]", UNFIT),
    ("mouse_move", "[1,4294967296]", UNFIT),
    ("mouse_move", "[\"left\",1,2]", UNFIT),
    ("mouse_move", "[1,2,3]", UNFIT),
    (
        "mouse_press",
        "[1,2]",
        Ok(Asked::Mouse(Mouse::Press(Button::Left, PLACE))),
    ),
    (
        "mouse_press",
        "[\"left\",1,2]",
        Ok(Asked::Mouse(Mouse::Press(Button::Left, PLACE))),
    ),
    (
        "mouse_press",
        "[\"middle\",1,2]",
        Ok(Asked::Mouse(Mouse::Press(Button::Middle, PLACE))),
    ),
    (
        "mouse_press",
        "[\"right\",1,2]",
        Ok(Asked::Mouse(Mouse::Press(Button::Right, PLACE))),
    ),
    ("mouse_press", "[\"Left\",1,2]", UNFIT),
    ("mouse_press", "[\"left\",1]", UNFIT),
    ("mouse_press", "[null,1,2]", UNFIT),
    ("mouse_press", "[\"left\",1,2,3]", UNFIT),
    ("mouse_press", "[1]", UNFIT),
    (
        "mouse_release",
        "[\"right\",1,2]",
        Ok(Asked::Mouse(Mouse::Release(Button::Right, PLACE))),
    ),
    (
        "mouse_release",
        "[1,2]",
        Ok(Asked::Mouse(Mouse::Release(Button::Left, PLACE))),
    ),
    ("mouse_release", "[\"right\",\"1\",2]", UNFIT),
    ("menu_select", "[-1]", Ok(Asked::Menu)),
    ("menu_select", "[18446744073709551615]", Ok(Asked::Menu)),
    ("menu_select", "[-9223372036854775809]", UNFIT),
    ("menu_select", "[1e3]", UNFIT),
    ("menu_select", "[]", UNFIT),
    ("menu_select", "[1,1]", UNFIT),
];

#[test]
fn parameters_fit_their_method_or_do_not(rt: HostRuntime) -> Result<(), Fail> {
    for &(method, params, wanted) in &PARAMETERS {
        let line = format!(in rt.alloc();
            "{{\"jsonrpc\":\"2.0\",\"method\":\"{method}\",\"params\":{params}}}"
        )?;
        let read = asked_by(rt.alloc(), line.as_bytes());
        assert_eq!(rt;
            read,
            wanted.map_err(LineError::Refused),
            "from {method} {params}"
        );
    }
    Ok(())
}

#[test]
fn parameters_that_are_missing_fit_keys_alone(rt: HostRuntime) -> Result<(), Fail> {
    for &(method, _, _) in &PARAMETERS {
        let line = format!(in rt.alloc(); "{{\"jsonrpc\":\"2.0\",\"method\":\"{method}\"}}")?;
        let read = asked_by(rt.alloc(), line.as_bytes());
        assert_eq!(rt;
            read,
            Err(LineError::Refused(Refusal::Params)),
            "from {method}"
        );
    }
    Ok(())
}
