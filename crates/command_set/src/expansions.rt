//! The table of expansions, as a client's world gives it.
#![tactic(auto, using(kak_world::proofs::WorldLaws::world_laws))]

ghost use Rattle.std.specs.Prelude.{◌≡◌, ◌∷◌, ◌++◌, [], true, codes, decimal, string_bytes, encode_utf8_all, IfOk, option_map};
ghost use Rattle.undo_model.specs.Stories.{is_modified};
ghost use Rattle.edit_ops.specs.Reading.{text_of_range};
ghost use Rattle.selection_set.specs.Inside.{IsInside, range_of};
ghost use Rattle.selection_texts.specs.Telling.{told_text};
ghost use Rattle.kak_registers.specs.Names.{named};
ghost use Rattle.kak_world.specs.Flat.{acts, option_of, text_of, story_of};
ghost use Rattle.command_set.specs.Expanding.{truth, main_selection, main_place, value_strings, value_named, parameter_strings, value_found, option_strings, register_strings, argument_at, arguments, given_words, table_of};

use crate::value_names::{Kind, ValueName, kind_named, value_named};
use byte_texts::Words;
use command_forms::{ArgumentPlace, Columns, whole_number};
use kak_registers::register_named;
use kak_words::Lookup;
use kak_world::{Turn, World};
use key_rows::{register_strings, string_of};
use regex_ports::Pattern;
use scope_options::{OptionValue, Scope};
use selection_set::Sel;
use selection_texts::{main_cursor, selection_desc, selections_desc};
use std::alloc::{AllocError, Global};

/// The expansions of a client.
#[derive(Drop)]
pub(crate) struct Expansions<'a, P: Pattern, T: Turn> {
    pub(crate) world: &'a World<P, T>,
    pub(crate) who: u32,
    ghost acts: { acts who world.now.flat ≡ true },
}

// One string.
fn only(alloc: Global, string: String) -> Result<Words, AllocError>
    ensures { IfOk result (λ words. words ≡ string_bytes string ∷ []) }
{
    let mut words = Words::new(alloc);
    words.push(string)?;
    Ok(words)
}

// A truth value as a word.
fn truth(is: bool) -> &'static str
    ensures { result.now ≡ truth is }
{
    if is { "true" } else { "false" }
}

// A number as a word.
fn number(alloc: Global, n: u64) -> Result<Words, AllocError>
    ensures { IfOk result (λ words. words ≡ decimal n ∷ []) }
{
    only(alloc, format!(in alloc; "{n}")?)
}

// The name of a client.
fn client_name(alloc: Global, n: u32) -> Result<Words, AllocError>
    ensures { IfOk result (λ words. words ≡ (codes "client" ++ decimal n) ∷ []) }
{
    only(alloc, format!(in alloc; "client{n}")?)
}

// The place of a client's main cursor.
fn main_place<P: Pattern, T: Turn>(world: &World<P, T>, who: u32, columns: Columns) -> ArgumentPlace
    requires { acts who world.now.flat ≡ true }
    ensures { result ≡ main_place columns who world.now.flat }
{
    main_cursor(world.lines(who), columns, world.sels(who))
}

// The main selection of a client.
fn main_selection<P: Pattern, T: Turn>(world: &World<P, T>, who: u32) -> Sel
    requires { acts who world.now.flat ≡ true }
    ensures inside { IsInside (text_of who world.now.flat) result }
    ensures value { range_of (text_of who world.now.flat) result ≡ main_selection who world.now.flat }
{
    let sels = world.sels(who);
    sels.at(sels.main())
}

// The main selection of a client, as it is described.
fn main_described<P: Pattern, T: Turn>(
    alloc: Global,
    world: &World<P, T>,
    who: u32,
) -> Result<Words, AllocError>
    requires { acts who world.now.flat ≡ true }
    ensures { IfOk result (λ words. words ≡ told_text (text_of who world.now.flat) (main_selection who world.now.flat) ∷ []) }
{
    let sel = main_selection(world, who);
    only(alloc, selection_desc(alloc, world.lines(who), sel)?)
}

// The text of the main selection of a client.
fn main_text<P: Pattern, T: Turn>(
    alloc: Global,
    world: &World<P, T>,
    who: u32,
) -> Result<Words, AllocError>
    requires { acts who world.now.flat ≡ true }
    ensures { IfOk result (λ words. words ≡ encode_utf8_all (text_of_range (text_of who world.now.flat) (main_selection who world.now.flat)) ∷ []) }
{
    let sel = main_selection(world, who);
    let text = edit_ops::text_of(alloc, world.lines(who), sel)?;
    only(alloc, string_of(alloc, text.as_slice())?)
}

// Whether the text of the buffer that a client sees may differ from what was saved.
fn is_modified<P: Pattern, T: Turn>(world: &World<P, T>, who: u32) -> bool
    requires { acts who world.now.flat ≡ true }
    ensures { result ≡ is_modified (story_of who world.now.flat) }
{
    match world.buffer(world.shown_number(who)) {
        None => unreachable!(),
        Some(buffer) => buffer.is_modified(),
    }
}

// The strings of a value.
fn value_strings<P: Pattern, T: Turn>(
    alloc: Global,
    world: &World<P, T>,
    who: u32,
    value: ValueName,
) -> Result<Words, AllocError>
    requires { acts who world.now.flat ≡ true }
    ensures { IfOk result (λ words. words ≡ value_strings value who world.now.flat) }
{
    match value {
        ValueName::BufferName => only(alloc, string_of(alloc, world.buffer_name(who))?),
        ValueName::Client => client_name(alloc, world.number(who)),
        ValueName::CursorLine => {
            number(
                alloc,
                u64::from(main_place(world, who, Columns::Bytes).line),
            )
        }
        ValueName::CursorColumn => {
            number(
                alloc,
                u64::from(main_place(world, who, Columns::Bytes).column),
            )
        }
        ValueName::CursorCharColumn => {
            number(
                alloc,
                u64::from(main_place(world, who, Columns::Characters).column),
            )
        }
        ValueName::Selection => main_text(alloc, world, who),
        ValueName::Selections => edit_ops::strings(alloc, world.lines(who), world.sels(who)),
        ValueName::Description => main_described(alloc, world, who),
        ValueName::Descriptions => selections_desc(alloc, world.lines(who), world.sels(who)),
        ValueName::Count => number(alloc, world.sels(who).len() as u64),
        ValueName::Modified => only(
            alloc,
            String::from_str(alloc, truth(is_modified(world, who)))?,
        ),
    }
}

/// The strings of an option's value.
pub(crate) fn option_strings(alloc: Global, value: &OptionValue) -> Result<Words, AllocError>
    ensures { IfOk result (λ words. words ≡ option_strings value.now) }
{
    match value {
        OptionValue::Int(n) => only(alloc, format!(in alloc; "{n}")?),
        OptionValue::Bool(is) => only(alloc, String::from_str(alloc, truth(*is))?),
        OptionValue::Str(text) => only(alloc, String::from_str(alloc, text.as_str())?),
        OptionValue::StrList(list) => list.copy(alloc),
    }
}

// The parameter of the hook that runs, as a string.
fn parameter_strings<P: Pattern, T: Turn>(
    alloc: Global,
    world: &World<P, T>,
) -> Result<Option<Words>, AllocError>
    ensures { IfOk result (λ words. words ≡ parameter_strings world.now.flat) }
{
    match world.parameter() {
        None => Ok(None),
        Some(text) => Ok(Some(only(alloc, String::from_str(alloc, text.as_str())?)?)),
    }
}

// The strings of the value of a name.
fn named_value<P: Pattern, T: Turn>(
    alloc: Global,
    world: &World<P, T>,
    who: u32,
    name: &str,
) -> Result<Option<Words>, AllocError>
    requires { acts who world.now.flat ≡ true }
    ensures { IfOk result (λ words. words ≡ value_found name.now who world.now.flat) }
{
    if name == "hook_param" {
        return parameter_strings(alloc, world);
    }
    match value_named(name) {
        None => Ok(None),
        Some(value) => Ok(Some(value_strings(alloc, world, who, value)?)),
    }
}

// The strings of the option of a name.
fn named_option<P: Pattern, T: Turn>(
    alloc: Global,
    world: &World<P, T>,
    who: u32,
    name: &str,
) -> Result<Option<Words>, AllocError>
    requires { acts who world.now.flat ≡ true }
    ensures { IfOk result (λ words. words ≡ option_map option_strings (option_of name.now who world.now.flat)) }
{
    match world
        .options()
        .seen(Scope::Window(who, world.shown_number(who)), name)
    {
        None => Ok(None),
        Some(value) => Ok(Some(option_strings(alloc, value)?)),
    }
}

// The strings of the register of a name.
fn named_register<P: Pattern, T: Turn>(
    alloc: Global,
    world: &World<P, T>,
    who: u32,
    name: &str,
) -> Result<Option<Words>, AllocError>
    requires { acts who world.now.flat ≡ true }
    ensures { IfOk result (λ words. words ≡ register_strings (named name.now) who world.now.flat) }
{
    match register_named(name) {
        None => Ok(None),
        Some(c) => register_strings(alloc, world, who, c),
    }
}

// The word of a number, from 1, if there is one.
fn argument_at(alloc: Global, words: &Words, n: u32) -> Result<Option<Words>, AllocError>
    ensures { IfOk result (λ found. found ≡ argument_at n words.now) }
{
    if n == 0 {
        return Ok(None);
    }
    let place = (n - 1) as usize;
    if place >= words.len() {
        return Ok(None);
    }
    let mut found = Words::new(alloc);
    found.push(String::from_str(alloc, words.get(place))?)?;
    Ok(Some(found))
}

// The words that a name says: all, or the one of a number.
fn arguments(alloc: Global, words: &Words, name: &str) -> Result<Option<Words>, AllocError>
    ensures { IfOk result (λ found. found ≡ arguments name.now words.now) }
{
    if name == "@" {
        return Ok(Some(words.copy(alloc)?));
    }
    match whole_number(name.as_bytes()) {
        None => Ok(None),
        Some(n) => argument_at(alloc, words, n),
    }
}

// The words that a name says of those that the defined command was given that runs; where none does, there are none.
fn named_argument<P: Pattern, T: Turn>(
    alloc: Global,
    world: &World<P, T>,
    name: &str,
) -> Result<Option<Words>, AllocError>
    ensures { IfOk result (λ found. found ≡ arguments name.now (given_words world.now.flat)) }
{
    match world.arguments() {
        None => arguments(alloc, &Words::new(alloc), name),
        Some(words) => arguments(alloc, words, name),
    }
}

// The strings of an expansion.
#[tactic(auto, using(kak_world::proofs::WorldLaws::world_laws), unfolding(crate::specs::Expanding::table_of))]
fn strings_of<P: Pattern, T: Turn>(
    alloc: Global,
    world: &World<P, T>,
    who: u32,
    kind: &str,
    name: &str,
) -> Result<Option<Words>, AllocError>
    requires { acts who world.now.flat ≡ true }
    ensures { IfOk result (λ words. words ≡ table_of who world.now.flat kind.now name.now) }
{
    match kind_named(kind) {
        None => Ok(None),
        Some(Kind::Value) => named_value(alloc, world, who, name),
        Some(Kind::Option) => named_option(alloc, world, who, name),
        Some(Kind::Register) => named_register(alloc, world, who, name),
        Some(Kind::Argument) => named_argument(alloc, world, name),
    }
}

impl<'a, P: Pattern, T: Turn> Lookup for Expansions<'a, P, T> {
    ghost table = { λ e. table_of e.who e.world.now.flat };

    fn look(&self, alloc: Global, kind: &str, name: &str) -> Result<Option<Words>, AllocError> {
        strings_of(alloc, self.world, self.who, kind, name)
    }
}
