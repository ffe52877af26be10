//! What commands do to highlighters.
#![tactic(auto, using(kak_world::proofs::WorldLaws::world_laws))]

ghost use Rattle.std.specs.Prelude.{◌≡◌, true, false, None, IfOk, IsErrOf};
ghost use Rattle.highlight_paint.specs.Painters.{paints_of};
ghost use Rattle.highlight_paint.specs.Highlighters.{paint_refusal};
ghost use Rattle.kak_world.specs.declared.ask.EditError.TheVariants.{NoMemory};
ghost use Rattle.kak_world.specs.Flat.{acts, faces_of, highlighters_of};
ghost use Rattle.kak_world.specs.Rows.{Answers, GivesRow};
ghost use Rattle.command_set.specs.Painting.{told_row, lays, seeks, painter_row, path_refusal, unless_refused, place_at, add_row, removed_at, highlighter_row, painted_row};
ghost use Rattle.command_set.specs.Painters.{groups_told, full_path};

use crate::options::scope_named;
use crate::painters::{face_told, full_path, groups_told, number_told};
use byte_texts::Utf8Text;
use command_forms::{HighlighterOrder, HighlighterWords, MatchWords, PainterWords, parted};
use highlight_paint::{GroupFace, PaintError, Painter};
use kak_text::Chars;
use kak_world::{Ask, CommandError, EditError, NewHighlighter, PatternUse, Turn, Wanted, World};
use regex_ports::Pattern;
use scope_options::Scope;
use sequences::Seq;
use std::alloc::{AllocError, Global};

/// A place for a highlighter: a scope, a path below that, and whether one that is there may be replaced.
#[derive(Drop, Debug)]
pub(crate) struct Place {
    pub(crate) scope: Scope,
    pub(crate) path: Utf8Text,
    pub(crate) replace: bool,
}

// The place of a path with the word of a scope before it, if there is that scope.
fn place_at<P: Pattern, T: Turn>(
    alloc: Global,
    world: &World<P, T>,
    who: u32,
    path: &str,
    replace: bool,
) -> Result<Option<Place>, AllocError>
    requires { acts who world.now.flat ≡ true }
    ensures { IfOk result (λ place. place ≡ place_at replace path.now who world.now.flat) }
{
    let Some((word, below)) = parted(path, '/') else {
        return Ok(None);
    };
    let Some(scope) = scope_named(word, world, who) else {
        return Ok(None);
    };
    let path = Utf8Text::from_str(alloc, below)?;
    Ok(Some(Place {
        scope,
        path,
        replace,
    }))
}

// Adds a highlighter at a place where it may stand.
fn lay<P: Pattern, T: Turn>(
    alloc: Global,
    world: &mut World<P, T>,
    at: &Place,
    painter: Painter<P>,
) -> Result<Ask, EditError>
    requires { paint_refusal at.now.scope at.now.path at.now.replace (highlighters_of world.old.flat) ≡ None }
    ensures row { GivesRow result world.new.flat (lays at.now world.old.flat (paints_of P.source painter)) }
    ensures wanting { IsErrOf result NoMemory → world.new.flat ≡ world.old.flat }
{
    match world.add_highlighter(alloc, at.scope, at.path.as_str(), painter, at.replace) {
        Ok(()) => Ok(Ask::Nothing),
        Err(_) => Err(EditError::NoMemory),
    }
}

// Asks for a pattern whose groups are to have faces.
fn seek<P: Pattern, T: Turn>(
    alloc: Global,
    world: &World<P, T>,
    at: Place,
    pattern: &str,
    groups: Seq<GroupFace>,
) -> Result<Ask, EditError>
    ensures row { GivesRow result world.now.flat (seeks at pattern.now world.now.flat groups) }
{
    let Place {
        scope,
        path,
        replace,
    } = at;
    Ok(Ask::Make(PatternUse {
        pattern: Chars::from_str(alloc, pattern)?,
        then: Wanted::Paints(NewHighlighter {
            scope,
            path,
            groups,
            replace,
        }),
    }))
}

// The same for the words of groups.
fn seek_told<P: Pattern, T: Turn>(
    alloc: Global,
    world: &World<P, T>,
    at: Place,
    matches: &MatchWords,
) -> Result<Ask, EditError>
    ensures row { GivesRow result world.now.flat (told_row (seeks at matches.now.pattern world.now.flat) world.now.flat (groups_told (faces_of world.now.flat) matches.now.groups)) }
{
    match groups_told(alloc, world.faces(), &matches.groups) {
        Ok(groups) => seek(alloc, world, at, matches.pattern.as_str(), groups),
        Err(error) => Err(error),
    }
}

// Adds a highlighter, by its words, at a place where it may stand.
fn paint<P: Pattern, T: Turn>(
    alloc: Global,
    world: &mut World<P, T>,
    at: Place,
    painter: &PainterWords,
) -> Result<Ask, EditError>
    requires { paint_refusal at.scope at.path at.replace (highlighters_of world.old.flat) ≡ None }
    ensures row { GivesRow result world.new.flat (painter_row at world.old.flat painter.now) }
    ensures wanting { IsErrOf result NoMemory → world.new.flat ≡ world.old.flat }
{
    match painter {
        PainterWords::Fill(face) => {
            let face = face_told(alloc, world.faces(), face.as_str())?;
            lay(alloc, world, &at, Painter::Fill(face))
        }
        PainterWords::Regex(matches) => seek_told(alloc, world, at, matches),
        PainterWords::NumberLines(numbers) => {
            let separator = Chars::from_str(alloc, numbers.separator.as_str())?;
            lay(
                alloc,
                world,
                &at,
                Painter::NumberLines(numbers.marked, separator),
            )
        }
        PainterWords::Line(place) => {
            let n = number_told(place.number.as_str().as_bytes())?;
            let face = face_told(alloc, world.faces(), place.face.as_str())?;
            lay(alloc, world, &at, Painter::AtLine(n, face))
        }
        PainterWords::Column(place) => {
            let n = number_told(place.number.as_str().as_bytes())?;
            let face = face_told(alloc, world.faces(), place.face.as_str())?;
            lay(alloc, world, &at, Painter::AtColumn(n, face))
        }
        PainterWords::ShowWhitespaces => lay(alloc, world, &at, Painter::ShowWhitespaces),
        PainterWords::Group => lay(alloc, world, &at, Painter::Group),
    }
}

// By what a client is told why a highlighter can't stand at a path: as it was written, and with its name.
fn path_refusal(written: Utf8Text, full: Utf8Text, error: PaintError) -> EditError
    ensures { result ≡ path_refusal written full error }
{
    match error {
        PaintError::BadPath => EditError::Command(CommandError::NoSuchHighlighter(written)),
        PaintError::PathTaken => EditError::Command(CommandError::HighlighterExists(full)),
        PaintError::NoMemory => EditError::NoMemory,
    }
}

// Adds a highlighter, by its words, at a place, unless it can't stand there: at a path as it was written, and with its name.
fn add_at<P: Pattern, T: Turn>(
    alloc: Global,
    world: &mut World<P, T>,
    at: Place,
    written: Utf8Text,
    full: Utf8Text,
    painter: &PainterWords,
) -> Result<Ask, EditError>
    ensures row { GivesRow result world.new.flat (unless_refused (paint_refusal at.scope at.path at.replace (highlighters_of world.old.flat)) written full (painter_row at world.old.flat painter.now) world.old.flat) }
    ensures wanting { IsErrOf result NoMemory → world.new.flat ≡ world.old.flat }
{
    match world
        .highlighters()
        .may_add(at.scope, at.path.as_str(), at.replace)
    {
        Ok(()) => paint(alloc, world, at, painter),
        Err(PaintError::BadPath) => {
            Err(EditError::Command(CommandError::NoSuchHighlighter(written)))
        }
        Err(PaintError::PathTaken) => {
            Err(EditError::Command(CommandError::HighlighterExists(full)))
        }
        Err(PaintError::NoMemory) => Err(EditError::NoMemory),
    }
}

// Adds a highlighter. `NoSuchHighlighter`, `HighlighterExists`, `BadValue`, `BadFace` and want of memory leave the world.
fn add<P: Pattern, T: Turn>(
    alloc: Global,
    world: &mut World<P, T>,
    who: u32,
    highlighter: HighlighterWords,
) -> Result<Ask, EditError>
    requires { acts who world.old.flat ≡ true }
    ensures row { GivesRow result world.new.flat (add_row highlighter who world.old.flat) }
    ensures wanting { IsErrOf result NoMemory → world.new.flat ≡ world.old.flat }
{
    let HighlighterWords {
        replace,
        path: written,
        words,
        painter,
    } = highlighter;
    let full = full_path(alloc, written.as_str(), &words)?;
    match place_at(alloc, world, who, full.as_str(), replace)? {
        Some(at) => add_at(alloc, world, at, written, full, &painter),
        None => Err(EditError::Command(CommandError::NoSuchHighlighter(written))),
    }
}

// Removes the highlighter of a path. `NoSuchHighlighter` leaves the world.
fn remove<P: Pattern, T: Turn>(
    alloc: Global,
    world: &mut World<P, T>,
    who: u32,
    written: Utf8Text,
) -> Result<Ask, EditError>
    requires { acts who world.old.flat ≡ true }
    ensures row { GivesRow result world.new.flat (removed_at (place_at false written who world.old.flat) written world.old.flat) }
    ensures wanting { IsErrOf result NoMemory → world.new.flat ≡ world.old.flat }
{
    let Some(at) = place_at(alloc, world, who, written.as_str(), false)? else {
        return Err(EditError::Command(CommandError::NoSuchHighlighter(written)));
    };
    match world.remove_highlighter(at.scope, at.path.as_str()) {
        Ok(()) => Ok(Ask::Nothing),
        Err(_) => Err(EditError::Command(CommandError::NoSuchHighlighter(written))),
    }
}

/// Adds or removes a highlighter. A refusal leaves the world, and so does want of memory.
pub(crate) fn change<P: Pattern, T: Turn>(
    alloc: Global,
    world: &mut World<P, T>,
    who: u32,
    order: HighlighterOrder,
) -> Result<Ask, EditError>
    requires { acts who world.old.flat ≡ true }
    ensures row { GivesRow result world.new.flat (highlighter_row order who world.old.flat) }
    ensures wanting { IsErrOf result NoMemory → world.new.flat ≡ world.old.flat }
{
    match order {
        HighlighterOrder::Add(highlighter) => add(alloc, world, who, highlighter),
        HighlighterOrder::Remove(path) => remove(alloc, world, who, path),
    }
}

/// Adds a highlighter whose pattern was made, or tells why it can't stand there now. A refusal leaves the world, and so does
/// want of memory.
pub(crate) fn add_made<P: Pattern, T: Turn>(
    alloc: Global,
    world: &mut World<P, T>,
    new: NewHighlighter,
    pattern: P,
) -> Result<Ask, EditError>
    ensures row { GivesRow result world.new.flat (painted_row new (P.source pattern) world.old.flat) }
    ensures wanting { IsErrOf result NoMemory → world.new.flat ≡ world.old.flat }
{
    let NewHighlighter {
        scope,
        path,
        groups,
        replace,
    } = new;
    match world.add_highlighter(
        alloc,
        scope,
        path.as_str(),
        Painter::Regex(pattern, groups),
        replace,
    ) {
        Ok(()) => Ok(Ask::Nothing),
        Err(error) => {
            let full = Utf8Text::from_str(alloc, path.as_str())?;
            Err(path_refusal(path, full, error))
        }
    }
}
