//! What windows show of texts with selections, each atom followed by a sign for its face.

ghost use Rattle.std.specs.Prelude.{◌≡◌, ◌≤◌, IfOk};
ghost use Rattle.std.specs.List.{AllByRecursion};
ghost use Rattle.selection_set.specs.Held.{IsHeld};
ghost use Rattle.selection_set.specs.Listing.{IsPairInside};

use drawings::DrawnLine;
use face_texts::{FaceTable, read_face};
use highlight_paint::{Highlighters, Painter, Viewer};
use kak_faces::{Face, StandardFace, merge};
use kak_text::{Chars, MAX_TABSTOP, Text};
use line_buffer::Lines;
use line_painting::{Scene, WindowFrame, draw_lines, part_in, push_run, push_shown, text_part};
use regex_ports::NoPattern;
use scope_options::Scope;
use selection_set::{Pair, Sels};
use std::alloc::Global;
use std::process::Abort;
use std::test::Fail;
use window_view::{Tabstop, Window};

// The lines of a text, to which a newline is added where it lacks.
fn lines_of(alloc: Global, text: &str) -> Result<Lines, Fail> {
    let chars = Chars::from_str(alloc, text)?;
    let text = Text::of_chars(alloc, chars.as_slice())?;
    Ok(Lines::of_text(alloc, &text)?)
}

// The ends of a selection, by their offsets.
fn pair<R: Abort>(rt: &R, lines: &Lines, anchor: usize, cursor: usize) -> Pair
    ensures { IsPairInside lines.now result }
{
    assert!(rt; anchor < lines.len());
    assert!(rt; cursor < lines.len());
    Pair {
        anchor: lines.coord_of(anchor),
        cursor: lines.coord_of(cursor),
    }
}

// The selections between some ends.
fn select<R: Abort>(
    rt: &R,
    alloc: Global,
    lines: &Lines,
    pairs: &[Pair],
    main: usize,
) -> Result<Sels, Fail>
    requires { AllByRecursion (IsPairInside lines.now) pairs.now }
    ensures { IfOk result (λ sels. IsHeld lines.now sels) }
{
    assert!(rt; main < pairs.len());
    let _ = lines.len();
    Ok(Sels::of_pairs(alloc, pairs, main)?)
}

// A sign for a face.
fn sign(face: Face) -> char {
    let bare = StandardFace::Default.face();
    let main = merge(bare, StandardFace::PrimarySelection.face());
    if face.is_same(main) {
        return '+';
    }
    if face.is_same(merge(bare, StandardFace::SecondarySelection.face())) {
        return '-';
    }
    if face.is_same(merge(main, StandardFace::PrimaryCursor.face())) {
        return '^';
    }
    if face.is_same(merge(main, StandardFace::PrimaryCursorEol.face())) {
        return '$';
    }
    '|'
}

// The contents of a line's atoms, each followed by a sign for its face.
fn signed(alloc: Global, line: &DrawnLine) -> Result<String, Fail> {
    let mut out = String::new(alloc);
    for atom in line.atoms.as_slice() {
        for c in atom.contents.as_slice() {
            out.push(*c)?;
        }
        out.push(sign(atom.face))?;
    }
    Ok(out)
}

// The lines of a window under highlighters, each line's atoms followed by signs for their faces.
fn painted(
    alloc: Global,
    lines: &Lines,
    sels: &Sels,
    window: Window,
    tabstop: Tabstop,
    highlighters: &Highlighters<NoPattern>,
) -> Result<String, Fail>
    requires held { IsHeld lines.now sels.now }
{
    let faces = FaceTable::given(alloc)?;
    let viewer = Viewer {
        buffer: 0,
        client: 0,
    };
    let part = part_in(lines, window);
    let grounds = highlighters.paint(alloc, viewer, part, &faces)?;
    let numbers = highlighters.numbers(alloc, viewer)?;
    let scene = Scene {
        lines,
        sels,
        frame: WindowFrame {
            window,
            tabstop,
            signs: highlighters.has_signs(viewer),
        },
        palette: faces.palette(),
        numbers: numbers.as_slice(),
        cursor_line: 0,
    };
    let drawn = draw_lines(alloc, scene, grounds)?;
    let mut out = String::new(alloc);
    for line in drawn.as_slice() {
        out.push_str(signed(alloc, line)?.as_str())?;
    }
    Ok(out)
}

// The lines of a window of 2 lines and 3 columns, each line's atoms followed by signs for their faces.
fn seen(
    alloc: Global,
    lines: &Lines,
    sels: &Sels,
    top: u32,
    left: u32,
    tabstop: Tabstop,
) -> Result<String, Fail>
    requires held { IsHeld lines.now sels.now }
{
    let window = Window {
        top,
        left,
        rows: 2,
        columns: 3,
    };
    let none = Highlighters::new(alloc);
    painted(alloc, lines, sels, window, tabstop, &none)
}

// What a window at the top shows of a text with one selection of a character.
fn seen_by_one<R: Abort>(
    rt: &R,
    alloc: Global,
    text: &str,
    left: u32,
    cursor: usize,
    tabstop: u32,
) -> Result<String, Fail> {
    let lines = lines_of(alloc, text)?;
    let pairs = [pair(rt, &lines, cursor, cursor)];
    let sels = select(rt, alloc, &lines, pairs.as_slice(), 0)?;
    assert!(rt; 1 <= tabstop);
    assert!(rt; tabstop <= MAX_TABSTOP);
    seen(alloc, &lines, &sels, 0, left, Tabstop { columns: tabstop })
}

// What a window at the top shows of a line with two selections, given by their ends.
fn seen_by_two<R: Abort>(
    rt: &R,
    alloc: Global,
    first: (usize, usize),
    second: (usize, usize),
    main: usize,
    left: u32,
) -> Result<String, Fail> {
    let lines = lines_of(alloc, "abcde")?;
    let pairs = [
        pair(rt, &lines, first.0, first.1),
        pair(rt, &lines, second.0, second.1),
    ];
    let sels = select(rt, alloc, &lines, pairs.as_slice(), main)?;
    seen(alloc, &lines, &sels, 0, left, Tabstop { columns: 8 })
}

#[test]
fn a_window_shows_the_cells_that_are_in_it(rt: HostRuntime) -> Result<(), Fail> {
    let alloc = rt.alloc();
    let rows = [
        ("a\tb", 0, 1, 8, "a|  ^"),
        ("a\tb", 6, 1, 8, "  ^b|"),
        ("a\tb", 8, 3, 8, "b|\n$"),
        ("a\tb", 2, 1, 4, "  ^b|"),
        ("a\tb", 0, 1, 1, "a| ^b|"),
        ("漢a", 0, 1, 8, "漢|a^"),
        ("漢a", 1, 0, 8, " ^a\n|"),
        ("漢a", 4, 0, 8, ""),
        ("ab漢", 0, 2, 8, "ab| ^"),
        ("e\u{301}a", 0, 1, 8, "e|\u{301}^a\n|"),
        ("e\u{301}a", 1, 2, 8, "\u{301}|a^\n|"),
        ("abe\u{301}", 0, 0, 8, "a^be|"),
        ("a\u{1B}", 0, 1, 8, "a|\u{FFFD}^\n|"),
        ("\u{85}", 0, 1, 8, "\u{FFFD}|\n$"),
    ];
    for (text, left, cursor, tabstop, expected) in &rows {
        let shown = seen_by_one(&rt, alloc, text, *left, *cursor, *tabstop)?;
        assert_eq!(rt; shown.as_str(), *expected);
    }
    Ok(())
}

#[test]
fn each_selection_has_its_faces(rt: HostRuntime) -> Result<(), Fail> {
    let alloc = rt.alloc();
    let rows = [
        ((0, 1), (3, 4), 0, 0, "a+b^c|"),
        ((0, 1), (3, 4), 0, 2, "c|d-e^"),
        ((0, 1), (3, 4), 1, 0, "a-b^c|"),
        ((2, 0), (4, 3), 1, 0, "a^bc-"),
        ((2, 0), (4, 3), 1, 3, "d^e+\n|"),
        ((0, 0), (5, 5), 0, 4, "e|\n$"),
        ((0, 2), (3, 5), 0, 2, "c^de-"),
    ];
    for (first, second, main, left, expected) in &rows {
        let shown = seen_by_two(&rt, alloc, *first, *second, *main, *left)?;
        assert_eq!(rt; shown.as_str(), *expected);
    }
    Ok(())
}

#[test]
fn selections_go_over_lines(rt: HostRuntime) -> Result<(), Fail> {
    let alloc = rt.alloc();
    let lines = lines_of(alloc, "a\nbc\nd\ne")?;
    let pairs = [
        pair(&rt, &lines, 0, 0),
        pair(&rt, &lines, 1, 5),
        pair(&rt, &lines, 7, 6),
    ];
    let sels = select(&rt, alloc, &lines, pairs.as_slice(), 1)?;
    let rows = [
        (0, 0, "a^\n+bc\n+"),
        (1, 0, "bc\n+d^\n$"),
        (2, 0, "d^\n$e-\n|"),
        (1, 1, "c\n+\n$"),
        (4, 0, ""),
    ];
    for (top, left, expected) in &rows {
        let shown = seen(alloc, &lines, &sels, *top, *left, Tabstop { columns: 8 })?;
        assert_eq!(rt; shown.as_str(), *expected);
    }
    Ok(())
}

#[test]
fn highlighters_lie_below_selections(rt: HostRuntime) -> Result<(), Fail> {
    let alloc = rt.alloc();
    let lines = lines_of(alloc, "ab c\td")?;
    let pairs = [pair(&rt, &lines, 0, 1)];
    let sels = select(&rt, alloc, &lines, pairs.as_slice(), 0)?;
    let mut rows = Highlighters::new(alloc);
    let window = Window {
        top: 0,
        left: 0,
        rows: 1,
        columns: 12,
    };
    let tabstop = Tabstop { columns: 8 };
    let fill = Painter::AtColumn(4, read_face(alloc, "red")?);
    rows.add(alloc, Scope::Global, "c", fill, false)?;
    let shown = painted(alloc, &lines, &sels, window, tabstop, &rows)?;
    assert_eq!(rt; shown.as_str(), "a+b^ |c|    d\n|");
    rows.add(alloc, Scope::Global, "w", Painter::ShowWhitespaces, false)?;
    let shown = painted(alloc, &lines, &sels, window, tabstop, &rows)?;
    assert_eq!(rt; shown.as_str(), "a+b^·|c|→   |d|¬|");
    let numbers = Painter::NumberLines(true, Chars::from_str(alloc, "|")?);
    rows.add(alloc, Scope::Buffer(0), "n", numbers, false)?;
    let viewer = Viewer {
        buffer: 0,
        client: 0,
    };
    let part = text_part(window, rows.gutter(viewer, lines.line_count(), tabstop));
    assert_eq!(rt; part.columns, 10);
    let shown = painted(alloc, &lines, &sels, part, tabstop, &rows)?;
    assert_eq!(rt; shown.as_str(), "1||a+b^·|c|→   |d|¬|");
    Ok(())
}

#[test]
fn characters_of_one_face_make_one_atom(rt: HostRuntime) -> Result<(), Fail> {
    let alloc = rt.alloc();
    let mut atoms = Vec::new(alloc);
    push_shown(alloc, &mut atoms, 'a', StandardFace::Prompt.face())?;
    push_run(alloc, &mut atoms, &['b', 'c'], StandardFace::Prompt.face())?;
    push_run(alloc, &mut atoms, &['d'], StandardFace::Error.face())?;
    assert_eq!(rt; atoms.len(), 2);
    Ok(())
}
