//! The status line and the mode line.

ghost use Rattle.std.specs.Prelude.{◌≡◌, ◌<◌, length, drop, IfOk};
ghost use Rattle.list_model.specs.Ranges.{Selected};
ghost use Rattle.line_painting.specs.Atoms.{shown_in, atoms_of};
ghost use Rattle.draw_model.specs.Boxes.{line_in};
ghost use Rattle.draw_model.specs.Drawings.{status_shown, under_cursor, search_name, use_name, prompt_name, prompt_shown, status_line, mode_name, mode_line_text, IsModeText};

use directions::Direction;
use drawings::{Atoms, DrawnLine};
use edit_line::EditLine;
use face_texts::Palette;
use kak_faces::Face;
use kak_text::{Chars, Coord};
use kak_world::{Mode, Purpose, StatusText, Use};
use line_painting::{push_run, push_shown};
use selection_set::Sels;
use std::alloc::{AllocError, Global};

/// A line of characters in one face.
pub(crate) fn run_line(alloc: Global, chars: &[char], face: Face) -> Result<DrawnLine, AllocError>
    ensures { IfOk result (λ line. line ≡ line_in face chars.now) }
{
    let mut atoms = Vec::new(alloc);
    push_run(alloc, &mut atoms, chars, face)?;
    Ok(DrawnLine {
        atoms: Atoms::of_vec(atoms),
    })
}

// The character under the cursor of a prompt, of what stands from there on; a space where nothing does.
fn under_cursor(behind: &[char]) -> char
    ensures { result ≡ under_cursor behind.now }
{
    match behind.first() {
        None => ' ',
        Some(c) => *c,
    }
}

// What stands behind the character under the cursor.
fn past_cursor(behind: &[char]) -> &[char]
    ensures { result.now ≡ drop 1 behind.now }
{
    &behind[behind.len().min(1)..]
}

// What stands before the line of a prompt for a pattern, by where its matches are looked for.
fn search_name(direction: Direction) -> &'static str
    ensures { result.now ≡ search_name direction }
{
    match direction {
        Direction::Forward => "search:",
        Direction::Backward => "reverse search:",
    }
}

// The same, by what is done with them.
fn use_name(wanted: Use) -> &'static str
    ensures { result.now ≡ use_name wanted }
{
    match wanted {
        Use::Select => "select:",
        Use::Split => "split:",
        Use::Keep => "keep:",
        Use::Drop => "drop:",
        Use::Search(direction) | Use::Reach(direction) => search_name(direction),
        Use::Step(direction, _) | Use::Add(direction, _) => search_name(direction),
    }
}

/// What stands before the line of a prompt. Each character of it has one cell.
pub(crate) fn prompt_name(purpose: Purpose) -> &'static str
    ensures { result.now ≡ prompt_name purpose }
{
    match purpose {
        Purpose::Commands => ":",
        Purpose::Pattern(wanted) => use_name(wanted),
    }
}

// The line of a prompt.
fn prompt_line(
    alloc: Global,
    palette: &Palette,
    purpose: Purpose,
    prompt: &EditLine,
) -> Result<DrawnLine, AllocError>
    ensures { IfOk result (λ line. line ≡ record { atoms = atoms_of (prompt_shown palette.now purpose prompt.now) }) }
{
    let name = Chars::from_str(alloc, prompt_name(purpose))?;
    let behind = prompt.behind();
    let mut atoms = Vec::new(alloc);
    push_run(alloc, &mut atoms, name.as_slice(), palette.prompt)?;
    push_run(alloc, &mut atoms, prompt.before(), palette.status_line)?;
    let under = under_cursor(behind);
    push_shown(alloc, &mut atoms, under, palette.status_cursor)?;
    push_run(alloc, &mut atoms, past_cursor(behind), palette.status_line)?;
    Ok(DrawnLine {
        atoms: Atoms::of_vec(atoms),
    })
}

// What a command said, or why one was refused.
fn said_line(alloc: Global, palette: &Palette, status: &StatusText) -> Result<DrawnLine, AllocError>
    ensures { IfOk result (λ line. line ≡ record { atoms = atoms_of (status_shown palette.now status.now) }) }
{
    match status {
        StatusText::Quiet => Ok(DrawnLine {
            atoms: Atoms::new(alloc),
        }),
        StatusText::Said(text) => run_line(alloc, text.as_slice(), palette.status_line),
        StatusText::Refused(text) => run_line(alloc, text.as_slice(), palette.error),
    }
}

/// Draws the status line: the prompt where the mode is one, else what a command said or why one was refused.
pub fn draw_status(
    alloc: Global,
    palette: &Palette,
    mode: Mode,
    status: &StatusText,
    purpose: Purpose,
    prompt: &EditLine,
) -> Result<DrawnLine, AllocError>
    ensures { IfOk result (λ line. line ≡ record { atoms = atoms_of (status_line palette.now mode status.now purpose prompt.now) }) }
{
    match mode {
        Mode::Prompt => prompt_line(alloc, palette, purpose, prompt),
        Mode::Normal | Mode::Insert => said_line(alloc, palette, status),
    }
}

// The name of a mode.
fn name_of(mode: Mode) -> &'static str
    ensures { result.now ≡ mode_name mode }
{
    match mode {
        Mode::Normal => "normal",
        Mode::Insert => "insert",
        Mode::Prompt => "prompt",
    }
}

// What the mode line says behind the buffer's name, of the place of the main selection and how many there are.
fn place_chars(
    alloc: Global,
    at: Coord,
    mode: Mode,
    main: usize,
    count: usize,
    number: u32,
) -> Result<Chars, AllocError>
    requires { main < count }
    ensures { IfOk result (λ text. (sels : Selected) → sels.main ≡ main → length sels.list ≡ count → text ≡ mode_line_text at mode sels number) }
{
    let line = u64::from(at.line) + 1;
    let column = u64::from(at.column) + 1;
    let name = name_of(mode);
    let nth = main as u64 + 1;
    let count = count as u64;
    let text = format!(in alloc; " {line}:{column} {name} {nth}/{count} - client{number}")?;
    Chars::from_str(alloc, text.as_str())
}

/// What the mode line says: the buffer's name, the coordinate of the main cursor, the mode, the place of the main selection
/// and how many there are, and the number in the client's name.
pub fn mode_chars(
    alloc: Global,
    buffer: &[char],
    at: Coord,
    mode: Mode,
    sels: &Sels,
    number: u32,
) -> Result<Chars, AllocError>
    ensures { IfOk result (IsModeText buffer.now at mode sels.now.main (length sels.now.list) number) }
{
    let place = place_chars(alloc, at, mode, sels.main(), sels.len(), number)?;
    let mut text = Chars::from_slice(alloc, buffer)?;
    text.extend_from_slice(place.as_slice())?;
    Ok(text)
}
