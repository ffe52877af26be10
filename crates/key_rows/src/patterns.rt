//! The patterns that rows ask for, and the register that holds the text of the one that was looked for last.
#![tactic(auto, using(kak_world::proofs::WorldLaws::world_laws))]

ghost use Rattle.std.specs.Prelude.{◌≡◌, ◌++◌, true, IfOk, IfErr, OnOk, IsErrOf};
ghost use Rattle.std.specs.Str.{chars};
ghost use Rattle.text_model.specs.Texts.{IsPlace, offset};
ghost use Rattle.selection_set.specs.Inside.{IsInside, range_of};
ghost use Rattle.kak_world.specs.declared.ask.EditError.TheVariants.{NoMemory};
ghost use Rattle.kak_world.specs.Flat.{acts};
ghost use Rattle.kak_world.specs.Rows.{Answers, GivesRow};
ghost use Rattle.key_rows.specs.Patterns.{last_string, last_pattern, asks_for_last, is_special, escaped_one, escaped_pattern, is_word_at, begins_word, ends_word, word_end, pattern_of, main_remembered};

use crate::reading::string_of;
use byte_texts::Words;
use edit_ops::text_of;
use kak_text::{Chars, Class, Coord, class};
use kak_world::{Ask, EditError, PatternUse, Turn, Use, Wanted, World};
use line_buffer::Lines;
use regex_ports::Pattern;
use selection_set::Sel;
use std::alloc::{AllocError, Global};

/// Where the text of a selection is looked for.
#[derive(Clone, Copy, PartialEq, Eq, Debug)]
pub enum Bounds {
    /// Anywhere.
    Anywhere,
    /// Where words end as they do around the selection: a word that begins or ends with it isn't found within a longer one.
    AtWordEnds,
}

// The last of some strings; of none the empty one.
fn last_string(alloc: Global, strings: &Words) -> Result<Chars, AllocError>
    ensures { IfOk result (λ last. last ≡ chars (last_string strings.now)) }
{
    match strings.len() {
        0 => Ok(Chars::new(alloc)),
        count => Chars::from_str(alloc, strings.get(count - 1)),
    }
}

// The text of the pattern that was looked for last.
fn last_pattern<P: Pattern, T: Turn>(
    alloc: Global,
    world: &World<P, T>,
) -> Result<Chars, AllocError>
    ensures { IfOk result (λ pattern. pattern ≡ last_pattern world.now.flat) }
{
    match world.registers().get('/') {
        Some(strings) => last_string(alloc, strings),
        None => Ok(Chars::new(alloc)),
    }
}

/// Asks for the pattern that was looked for last, and for a use of it. An `Err` says that memory ran out.
pub fn ask_for_last<P: Pattern, T: Turn>(
    alloc: Global,
    world: &World<P, T>,
    wanted: Use,
) -> Result<Ask, EditError>
    ensures row { GivesRow result world.now.flat (asks_for_last wanted world.now.flat) }
    ensures memory { IfErr result (λ error. error ≡ NoMemory) }
{
    Ok(Ask::Make(PatternUse {
        pattern: last_pattern(alloc, world)?,
        then: Wanted::Selects(wanted),
    }))
}

// Whether a character stands for something else than itself in a pattern.
fn is_special(c: char) -> bool
    ensures { result ≡ is_special c }
{
    matches!(
        c,
        '\\' | '.'
            | '+'
            | '*'
            | '?'
            | '('
            | ')'
            | '|'
            | '['
            | ']'
            | '{'
            | '}'
            | '^'
            | '$'
            | '#'
            | '&'
            | '-'
            | '~'
    )
}

// Puts a character behind a pattern, so that it goes on with just this one.
fn push_one(pattern: &mut Chars, c: char) -> Result<(), AllocError>
    ensures { OnOk result (pattern.new ≡ pattern.old ++ escaped_one c) }
{
    if !is_special(c) {
        return pattern.push(c);
    }
    pattern.push('\\')?;
    pattern.push(c)
}

// The same for several characters.
fn push_escaped(pattern: &mut Chars, chars: &[char]) -> Result<(), AllocError>
    ensures { OnOk result (pattern.new ≡ pattern.old ++ escaped_pattern chars.now) }
{
    for c in chars {
        push_one(pattern, *c)?;
    }
    Ok(())
}

// Puts the end of a word behind a pattern, if that is wanted.
fn push_word_end(pattern: &mut Chars, wanted: bool) -> Result<(), AllocError>
    ensures { OnOk result (pattern.new ≡ pattern.old ++ word_end wanted) }
{
    if wanted {
        pattern.push('\\')?;
        pattern.push('b')?;
    }
    Ok(())
}

// Whether a word character stands at a place.
fn is_word_at(lines: &Lines, at: Coord) -> bool
    requires { IsPlace lines.now at }
    ensures { result ≡ is_word_at lines.now (offset lines.now at) }
{
    class(lines.char_at(at)).is(Class::Word)
}

// Whether a word begins at a place.
fn begins_word(lines: &Lines, at: Coord) -> bool
    requires { IsPlace lines.now at }
    ensures { result ≡ begins_word lines.now (offset lines.now at) }
{
    if !is_word_at(lines, at) {
        return false;
    }
    match lines.prev(at) {
        Some(before) => !is_word_at(lines, before),
        None => true,
    }
}

// Whether a word ends at a place.
fn ends_word(lines: &Lines, at: Coord) -> bool
    requires { IsPlace lines.now at }
    ensures { result ≡ ends_word lines.now (offset lines.now at) }
{
    if !is_word_at(lines, at) {
        return false;
    }
    match lines.next(at) {
        Some(behind) => !is_word_at(lines, behind),
        None => true,
    }
}

// The text of a selection as a pattern.
fn pattern_of(alloc: Global, lines: &Lines, sel: Sel, bounds: Bounds) -> Result<Chars, AllocError>
    requires { IsInside lines.now sel }
    ensures { IfOk result (λ pattern. pattern ≡ pattern_of bounds lines.now (range_of lines.now sel)) }
{
    let text = text_of(alloc, lines, sel)?;
    let mut pattern = Chars::new(alloc);
    match bounds {
        Bounds::Anywhere => push_escaped(&mut pattern, text.as_slice())?,
        Bounds::AtWordEnds => {
            push_word_end(&mut pattern, begins_word(lines, sel.low))?;
            push_escaped(&mut pattern, text.as_slice())?;
            push_word_end(&mut pattern, ends_word(lines, sel.high))?;
        }
    }
    Ok(pattern)
}

/// Has the text of the main selection be the pattern that was looked for last. `RegisterFull` comes where it has more characters
/// than a register may hold; an error leaves the world.
pub fn remember_main<P: Pattern, T: Turn>(
    alloc: Global,
    world: &mut World<P, T>,
    who: u32,
    bounds: Bounds,
) -> Result<(), EditError>
    requires { acts who world.old.flat ≡ true }
    ensures row { Answers result world.new.flat (main_remembered bounds who world.old.flat) }
    ensures wanting { IsErrOf result NoMemory → world.new.flat ≡ world.old.flat }
{
    let sels = world.sels(who);
    let main = sels.at(sels.main());
    let pattern = pattern_of(alloc, world.lines(who), main, bounds)?;
    let mut strings = Words::new(alloc);
    strings.push(string_of(alloc, pattern.as_slice())?)?;
    world.set_register('/', strings)
}
