//! The box that a client is shown.

ghost use Rattle.std.specs.Prelude.{◌≡◌, ◌==◌, true, None, map, option_map, OnOk, OnErr, IfOk};
ghost use Rattle.std.specs.Str.{bytes_eq};
ghost use Rattle.kak_world.specs.Flat.{acts};
ghost use Rattle.draw_model.specs.Boxes.{parts, line_in, boxed, box_drawn, same_box, was_shown, info_since, with_drawn};

use crate::status::run_line;
use drawings::{DrawnLines, Info, InfoBox};
use kak_faces::Face;
use kak_text::Chars;
use kak_world::{Note, Own, SentBox, Turn, World};
use regex_ports::Pattern;
use std::alloc::{AllocError, Global};

// Whether a character is a newline.
fn is_newline(c: char) -> bool
    ensures { result ≡ (c == 10) }
{
    c == '\n'
}

// The lines of the parts of a text between newlines, in one face.
fn part_lines(alloc: Global, text: &[char], face: Face) -> Result<DrawnLines, AllocError>
    ensures { IfOk result (λ lines. lines ≡ map (line_in face) (parts text.now)) }
{
    let mut lines = DrawnLines::new(alloc);
    let mut from = 0;
    for i in 0..text.len() {
        if !is_newline(text[i]) {
            continue;
        }
        lines.push(run_line(alloc, &text[from..i], face)?)?;
        from = i + 1;
    }
    lines.push(run_line(alloc, &text[from..], face)?)?;
    Ok(lines)
}

// A note as a box in a face.
fn draw_box(alloc: Global, note: &Note, face: Face) -> Result<InfoBox, AllocError>
    ensures { IfOk result (λ b. b ≡ box_drawn (boxed face note.now)) }
{
    Ok(InfoBox {
        title: run_line(alloc, note.title.as_slice(), face)?,
        content: part_lines(alloc, note.content.as_slice(), face)?,
        face,
    })
}

// Whether characters are the same as others.
fn are_same(a: &[char], b: &[char]) -> bool
    ensures { result ≡ bytes_eq a.now b.now }
{
    if a.len() != b.len() {
        return false;
    }
    for i in 0..a.len() {
        if a[i] != b[i] {
            return false;
        }
    }
    true
}

// Whether a box that was shown looks like a note in a face.
fn is_alike(sent: &SentBox, note: &Note, face: Face) -> bool
    ensures { result ≡ same_box sent.now (boxed face note.now) }
{
    if !are_same(sent.title.as_slice(), note.title.as_slice()) {
        return false;
    }
    if !are_same(sent.content.as_slice(), note.content.as_slice()) {
        return false;
    }
    sent.face.is_same(face)
}

// Whether a box was shown that looks like a note in a face.
fn was_shown(sent: &Option<SentBox>, note: &Note, face: Face) -> bool
    ensures { result ≡ was_shown sent.now (boxed face note.now) }
{
    match sent {
        None => false,
        Some(sent) => is_alike(sent, note, face),
    }
}

// What becomes of a box that was shown, if one was, where none is to be.
fn gone(sent: &Option<SentBox>) -> Info
    ensures { result ≡ info_since sent.now None }
{
    match sent {
        None => Info::Keep,
        Some(_) => Info::Hide,
    }
}

/// What becomes of a box that was shown, if one was, where a note is to be shown in a face, or none.
pub(crate) fn draw_info(
    alloc: Global,
    sent: &Option<SentBox>,
    note: &Option<Note>,
    face: Face,
) -> Result<Info, AllocError>
    ensures { IfOk result (λ info. info ≡ info_since sent.now (option_map (boxed face) note.now)) }
{
    let Some(note) = note else {
        return Ok(gone(sent));
    };
    if was_shown(sent, note, face) {
        return Ok(Info::Keep);
    }
    Ok(Info::Show(draw_box(alloc, note, face)?))
}

// A copy of a note as a box in a face, if there is one.
fn copy_of(alloc: Global, note: &Option<Note>, face: Face) -> Result<Option<SentBox>, AllocError>
    ensures { IfOk result (λ sent. sent ≡ option_map (boxed face) note.now) }
{
    match note {
        None => Ok(None),
        Some(note) => Ok(Some(SentBox {
            title: Chars::from_slice(alloc, note.title.as_slice())?,
            content: Chars::from_slice(alloc, note.content.as_slice())?,
            face,
        })),
    }
}

// Notes a drawing with a box, or without one.
fn set_drawn(own: &mut Own, sent: Option<SentBox>)
    ensures { own.new ≡ record own.old { drawn = true; sent = sent } }
{
    own.drawn = true;
    own.sent = sent;
}

/// Notes that a client was drawn, and with which box. An `Err` leaves the world.
#[tactic(auto, using(kak_world::proofs::WorldLaws::world_laws))]
pub fn note_drawn<P: Pattern, T: Turn>(
    alloc: Global,
    world: &mut World<P, T>,
    who: u32,
) -> Result<(), AllocError>
    requires { acts who world.old.flat ≡ true }
    ensures ok { OnOk result (world.new.flat ≡ with_drawn who world.old.flat) }
    ensures err { OnErr result (world.new.flat ≡ world.old.flat) }
{
    let face = world.faces().palette().information;
    let sent = copy_of(alloc, &world.own(who).info, face)?;
    set_drawn(world.own_mut(who), sent);
    Ok(())
}
