//! What is made of a pattern that was asked for, once the outside has answered.
#![tactic(auto, using(kak_world::proofs::WorldLaws::world_laws))]

ghost use Rattle.std.specs.Prelude.{◌≡◌, true, IfOk, IsErrOf};
ghost use Rattle.selection_set.specs.Held.{IsHeld, selected};
ghost use Rattle.kak_world.specs.declared.ask.EditError.TheVariants.{NoMemory};
ghost use Rattle.kak_world.specs.Flat.{acts, text_of, with_sels};
ghost use Rattle.kak_world.specs.Rows.{GivesRow, does};
ghost use Rattle.command_set.specs.Finishing.{source_of, list_used, next_use, further_asked, pattern_used, made_row, row_finish};
ghost use Rattle.command_set.specs.Refusing.{refusal_of, IsListOf};

use crate::{hooking, painting};
use kak_world::{Ask, EditError, Turn, Use, Wanted, World};
use key_rows::ask_for_last;
use regex_ports::{Made, Pattern};
use regex_select::{
    Search, SelectError, add_match, keep, matches_in, search, search_main, split_in,
};
use selection_set::Sels;
use std::alloc::Global;

// By what the client is told why nothing was selected.
fn refusal_of(error: SelectError) -> EditError
    ensures { result ≡ refusal_of error }
{
    match error {
        SelectError::NoMatch => EditError::NothingSelected,
        SelectError::TooMany => EditError::TooManySelections,
        SelectError::NoMemory => EditError::NoMemory,
    }
}

// The list that a use of a pattern leaves to a client.
fn list_used<P: Pattern, T: Turn>(
    alloc: Global,
    world: &World<P, T>,
    who: u32,
    wanted: Use,
    pattern: &P,
) -> Result<Sels, SelectError>
    requires { acts who world.now.flat ≡ true }
    ensures held { IfOk result (λ sels. IsHeld (text_of who world.now.flat) sels) }
    ensures lists { IsListOf result (list_used wanted (P.source pattern.now) who world.now.flat) who world.now.flat }
{
    let lines = world.lines(who);
    let sels = world.sels(who);
    let known = world.known_matches(who);
    match wanted {
        Use::Select => matches_in(alloc, lines, sels, pattern),
        Use::Split => split_in(alloc, lines, sels, pattern),
        Use::Keep => keep(alloc, lines, sels, pattern, true),
        Use::Drop => keep(alloc, lines, sels, pattern, false),
        Use::Search(direction) => {
            search(
                alloc,
                lines,
                sels,
                pattern,
                Search {
                    direction,
                    extend: false,
                },
                known,
            )
        }
        Use::Reach(direction) => {
            search(
                alloc,
                lines,
                sels,
                pattern,
                Search {
                    direction,
                    extend: true,
                },
                known,
            )
        }
        Use::Step(direction, _) => search_main(alloc, lines, sels, pattern, direction, known),
        Use::Add(direction, _) => add_match(alloc, lines, sels, pattern, direction, known),
    }
}

// What comes behind a use: a further one where it is to be made more often.
fn next_use(wanted: Use) -> Option<Use>
    ensures { result ≡ next_use wanted }
{
    match wanted {
        Use::Step(direction, further) if further > 0 => Some(Use::Step(direction, further - 1)),
        Use::Add(direction, further) if further > 0 => Some(Use::Add(direction, further - 1)),
        _ => None,
    }
}

// Takes a list for a client, and asks for the further use that comes behind it, for which a unit is taken.
fn take_list<P: Pattern, T: Turn>(
    alloc: Global,
    world: &mut World<P, T>,
    who: u32,
    sels: Sels,
    next: Option<Use>,
) -> Result<Ask, EditError>
    requires acts { acts who world.old.flat ≡ true }
    requires held { IsHeld (text_of who world.old.flat) sels }
    ensures row { GivesRow result world.new.flat (further_asked next (with_sels who (selected (text_of who world.old.flat) sels) world.old.flat)) }
    ensures wanting { IsErrOf result NoMemory → world.new.flat ≡ world.old.flat }
{
    match next {
        None => {
            world.set_sels(who, sels);
            Ok(Ask::Nothing)
        }
        Some(next) => {
            let ask = ask_for_last(alloc, world, next)?;
            world.set_sels(who, sels);
            if !world.take_unit() {
                return Err(EditError::BudgetSpent);
            }
            Ok(ask)
        }
    }
}

// Lets be known of the matches of a pattern in the text that a client sees what is to be known when it is searched for. The flat
// world says nothing of that, and that memory is wanting for it isn't told.
fn know<P: Pattern, T: Turn>(alloc: Global, world: &mut World<P, T>, who: u32, pattern: &P)
    requires { acts who world.old.flat ≡ true }
    ensures { world.new ≡ world.old }
{
    let lines = world.lines(who);
    match world
        .known_matches(who)
        .when_searched(alloc, lines, pattern)
    {
        None => {}
        Some(next) => world.know_matches(who, next),
    }
}

// The same where a use of a pattern searches for it in the whole text.
fn know_for<P: Pattern, T: Turn>(
    alloc: Global,
    world: &mut World<P, T>,
    who: u32,
    wanted: Use,
    pattern: &P,
)
    requires { acts who world.old.flat ≡ true }
    ensures { world.new ≡ world.old }
{
    match wanted {
        Use::Search(_) => know(alloc, world, who, pattern),
        Use::Reach(_) => know(alloc, world, who, pattern),
        Use::Step(_, _) => know(alloc, world, who, pattern),
        Use::Add(_, _) => know(alloc, world, who, pattern),
        _ => {}
    }
}

// Makes use of a pattern.
fn make_use<P: Pattern, T: Turn>(
    alloc: Global,
    world: &mut World<P, T>,
    who: u32,
    wanted: Use,
    pattern: &P,
) -> Result<Ask, EditError>
    requires { acts who world.old.flat ≡ true }
    ensures row { GivesRow result world.new.flat (pattern_used wanted (P.source pattern.now) who world.old.flat) }
    ensures wanting { IsErrOf result NoMemory → world.new.flat ≡ world.old.flat }
{
    know_for(alloc, world, who, wanted, pattern);
    match list_used(alloc, world, who, wanted, pattern) {
        Ok(sels) => take_list(alloc, world, who, sels, next_use(wanted)),
        Err(error) => Err(refusal_of(error)),
    }
}

// Makes of a pattern what it was asked for.
fn make<P: Pattern, T: Turn>(
    alloc: Global,
    world: &mut World<P, T>,
    who: u32,
    wanted: Wanted,
    pattern: P,
) -> Result<Ask, EditError>
    requires { acts who world.old.flat ≡ true }
    ensures row { GivesRow result world.new.flat (made_row wanted (P.source pattern) who world.old.flat) }
    ensures wanting { IsErrOf result NoMemory → world.new.flat ≡ world.old.flat }
{
    match wanted {
        Wanted::Selects(wanted) => make_use(alloc, world, who, wanted, &pattern),
        Wanted::Paints(new) => painting::add_made(alloc, world, new, pattern),
        Wanted::Hooks(new) => hooking::add_made(world, new, pattern),
    }
}

/// Makes of a pattern what it was asked for, or tells that it was refused: `BadPattern`. A use of its matches is refused by
/// `NothingSelected` where nothing would be selected, and by `TooManySelections` where there would be more selections than there
/// may be; one that is to be made more often takes a unit for each further time, and asks for the pattern again; `BudgetSpent`
/// comes where none is left. A hook is refused by `TooManyHooks`. Each other refusal leaves the world, and so does want of memory.
#[tactic(auto, unfolding(crate::specs::Finishing::row_finish))]
pub fn finish<P: Pattern, T: Turn>(
    alloc: Global,
    world: &mut World<P, T>,
    who: u32,
    wanted: Wanted,
    made: Made<P>,
) -> Result<Ask, EditError>
    requires { acts who world.old.flat ≡ true }
    ensures row { GivesRow result world.new.flat (row_finish wanted (source_of P.source made) who world.old.flat) }
    ensures wanting { IsErrOf result NoMemory → world.new.flat ≡ world.old.flat }
{
    match made {
        Made::Built(pattern) => make(alloc, world, who, wanted, pattern),
        Made::Refused => Err(EditError::BadPattern),
    }
}
