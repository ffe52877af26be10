//! The lists of three clients on a shelf whose log begins again often, each of which is brought up to date seldom, beside the
//! same lists moved and settled at each change.

ghost use Rattle.std.specs.Prelude.{◌≡◌, ℕ, ◌<◌, ◌≤◌, List, IfOk, OnOk};
ghost use Rattle.std.specs.List.{AllByRecursion};
ghost use Rattle.text_model.specs.Texts.{IsStored, IsPlace};
ghost use Rattle.selection_set.specs.Held.{IsHeld};
ghost use Rattle.change_list.specs.declared.log.TheConstants.{MAX_STAMP};
ghost use Rattle.text_trials.specs.ShelfTrials.{IsOneChange, CanAllMove, StandTogether};

use change_list::MAX_STAMP;
use kak_text::Text;
use line_buffer::Lines;
use list_shelf::{Holder, Shelf};
use selection_map::map_sels;
use selection_set::{Pair, Sels};
use std::alloc::Global;
use std::process::Abort;
use std::test::Fail;
use text_model::{Coord, Shift};
use window_view::Corner;

// How many clients there are, how many turns a session has, and how many sessions there are for each limit of the log.
const CLIENTS: u32 = 3;

const TURNS: u32 = 300;

const SEEDS: u64 = 20;

// Numbers in a row that follow from a seed.
#[derive(Drop)]
struct Drawn {
    state: u64,
}

impl Drawn {
    // The next one, below a bound.
    fn below(&mut self, bound: usize) -> usize
        requires { 0 < bound }
        ensures { result < bound }
    {
        self.state = self
            .state
            .wrapping_mul(6_364_136_223_846_793_005)
            .wrapping_add(1_442_695_040_888_963_407);
        (self.state >> 33) as usize % bound
    }
}

// A text, the lists on it on a shelf, and the same lists as they are when each is moved at each change.
#[derive(Drop)]
struct Twice {
    lines: Lines,
    shelf: Shelf,
    eager: Vec<Sels>,
}

// A place of a text.
fn drawn_place(lines: &Lines, drawn: &mut Drawn) -> Coord
    ensures place { IsPlace lines.now result }
    ensures valid { IsStored lines.now }
{
    let count = lines.len();
    lines.coord_of(drawn.below(count))
}

// A list of up to three selections of a text, which are given in any order.
fn drawn_list(alloc: Global, lines: &Lines, drawn: &mut Drawn) -> Result<Sels, Fail>
    ensures held { IfOk result (λ list. IsHeld lines.now list) }
    ensures valid { IsStored lines.now }
{
    let first = drawn_place(lines, drawn);
    let second = drawn_place(lines, drawn);
    let third = drawn_place(lines, drawn);
    let all = [
        Pair {
            anchor: first,
            cursor: second,
        },
        Pair {
            anchor: second,
            cursor: second,
        },
        Pair {
            anchor: third,
            cursor: third,
        },
    ];
    let main = drawn.below(3);
    let list = Sels::of_pairs(alloc, all.as_slice(), main)?;
    Ok(list)
}

// Characters that are put in.
fn drawn_chars(drawn: &mut Drawn) -> &'static [char] {
    match drawn.below(4) {
        0 => &['\n'],
        1 => &['b', '\n', 'c'],
        2 => &['d', 'e', 'f'],
        _ => &['a'],
    }
}

// Puts characters in at some place or at the end.
fn put_some_in(alloc: Global, lines: &mut Lines, drawn: &mut Drawn) -> Result<Shift, Fail>
    ensures { IfOk result (λ shift. IsOneChange lines.old lines.new shift) }
{
    let count = lines.len();
    let at = lines.coord_of(drawn.below(count + 1));
    let shift = lines.insert(alloc, at, drawn_chars(drawn))?;
    Ok(shift)
}

// Takes characters out from some place on.
fn take_some_out(alloc: Global, lines: &mut Lines, drawn: &mut Drawn) -> Result<Shift, Fail>
    ensures { IfOk result (λ shift. IsOneChange lines.old lines.new shift) }
{
    let count = lines.len();
    let begin = drawn.below(count);
    let end = begin + drawn.below(count - begin) + 1;
    let from = lines.coord_of(begin);
    let to = lines.coord_of(end);
    let (shift, _taken) = lines.erase(alloc, from, to)?;
    Ok(shift)
}

// A change of a text, and its shift.
fn change(alloc: Global, lines: &mut Lines, drawn: &mut Drawn) -> Result<Shift, Fail>
    ensures { IfOk result (λ shift. IsOneChange lines.old lines.new shift) }
{
    if drawn.below(3) > 0 {
        return put_some_in(alloc, lines, drawn);
    }
    take_some_out(alloc, lines, drawn)
}

// Moves and settles each of some lists at a change.
fn move_each(lists: &mut Vec<Sels>, shift: &Shift)
    requires { CanAllMove shift.now lists.old.items }
    ensures { (old new : List ℕ) → IsOneChange old new shift.now → AllByRecursion (IsHeld old) lists.old.items → AllByRecursion (IsHeld new) lists.new.items }
{
    for n in 0..lists.len() {
        let list = &mut lists[n];
        map_sels(list, shift);
    }
}

// Who acts: the second client seldom, and the third one very seldom.
fn drawn_client(drawn: &mut Drawn) -> u32 {
    match drawn.below(40) {
        0 => 2,
        1..=4 => 1,
        _ => 0,
    }
}

// Gives each client a list of a text, on a shelf and beside it.
fn filled(
    alloc: Global,
    limit: u64,
    lines: &Lines,
    drawn: &mut Drawn,
) -> Result<(Shelf, Vec<Sels>), Fail>
    requires some { 0 < limit }
    requires few { limit ≤ MAX_STAMP }
    ensures { IfOk result (λ r. StandTogether lines.now r.0 r.1.items) }
{
    let corner = Corner::first();
    let mut shelf = Shelf::with_limit(alloc, limit);
    let mut eager = Vec::new(alloc);
    for who in 0..CLIENTS {
        let list = drawn_list(alloc, lines, drawn)?;
        let copy = list.copy(alloc)?;
        shelf.add_list(Holder::Of(who), copy, corner)?;
        eager.push(list)?;
    }
    Ok((shelf, eager))
}

impl Twice {
    // Three clients with a list each, on the shelf of a log that begins again at a limit.
    fn new(alloc: Global, limit: u64, drawn: &mut Drawn) -> Result<Twice, Fail>
        requires some { 0 < limit }
        requires few { limit ≤ MAX_STAMP }
        ensures { IfOk result (λ twice. StandTogether twice.lines twice.shelf twice.eager.items) }
    {
        let text = Text::of_chars(alloc, &['a', 'b', '\n', 'c', 'd', '\n'])?;
        let lines = Lines::of_text(alloc, &text)?;
        let (shelf, eager) = filled(alloc, limit, &lines, drawn)?;
        Ok(Twice {
            lines,
            shelf,
            eager,
        })
    }

    // A copy of a client's list: behind what it missed, it is the list that was moved at each change.
    fn look<R: Abort>(&self, rt: &R, alloc: Global, who: u32) -> Result<(), Fail>
        requires { StandTogether self.now.lines self.now.shelf self.now.eager.items }
    {
        if !self.shelf.has_list(Holder::Of(who)) {
            return Err(Fail::new("a client has no list"));
        }
        assert!(rt; (who as usize) < self.eager.len());
        let list = self.shelf.copy_of(alloc, Holder::Of(who))?;
        let other = &self.eager[who as usize];
        assert_eq!(rt; list.as_slice(), other.as_slice());
        assert_eq!(rt; list.main(), other.main());
        Ok(())
    }

    // Brings a client's list up to date: it is the list that was moved at each change.
    fn enter<R: Abort>(&mut self, rt: &R, who: u32) -> Result<(), Fail>
        requires { StandTogether self.old.lines self.old.shelf self.old.eager.items }
        ensures { OnOk result (StandTogether self.new.lines self.new.shelf self.new.eager.items) }
    {
        self.shelf.enter(Holder::Of(who));
        if !self.shelf.has_list(Holder::Of(who)) {
            return Err(Fail::new("a client has no list"));
        }
        assert!(rt; (who as usize) < self.eager.len());
        let list = self.shelf.sels(Holder::Of(who));
        let other = &self.eager[who as usize];
        assert_eq!(rt; list.as_slice(), other.as_slice());
        assert_eq!(rt; list.main(), other.main());
        Ok(())
    }

    // Changes the text: the shift is noted for a client, and all lists are moved beside it.
    fn change(&mut self, alloc: Global, who: u32, drawn: &mut Drawn) -> Result<(), Fail>
        requires { StandTogether self.old.lines self.old.shelf self.old.eager.items }
        ensures { OnOk result (StandTogether self.new.lines self.new.shelf self.new.eager.items) }
    {
        let shift = change(alloc, &mut self.lines, drawn)?;
        move_each(&mut self.eager, &shift);
        let shifts = [shift];
        self.shelf.note_for(Holder::Of(who), shifts.as_slice())?;
        Ok(())
    }

    // Gives a client another list.
    fn replace<R: Abort>(
        &mut self,
        rt: &R,
        alloc: Global,
        who: u32,
        drawn: &mut Drawn,
    ) -> Result<(), Fail>
        requires { StandTogether self.old.lines self.old.shelf self.old.eager.items }
        ensures { OnOk result (StandTogether self.new.lines self.new.shelf self.new.eager.items) }
    {
        if !self.shelf.has_list(Holder::Of(who)) {
            return Err(Fail::new("a client has no list"));
        }
        assert!(rt; (who as usize) < self.eager.len());
        let list = drawn_list(alloc, &self.lines, drawn)?;
        let copy = list.copy(alloc)?;
        self.shelf.set_sels(Holder::Of(who), copy);
        self.eager[who as usize] = list;
        Ok(())
    }

    // One turn: a client's list is brought up to date, and then is replaced, or the text is changed.
    fn turn<R: Abort>(&mut self, rt: &R, alloc: Global, drawn: &mut Drawn) -> Result<(), Fail>
        requires { StandTogether self.old.lines self.old.shelf self.old.eager.items }
        ensures { OnOk result (StandTogether self.new.lines self.new.shelf self.new.eager.items) }
    {
        let who = drawn_client(drawn);
        self.enter(rt, who)?;
        if drawn.below(6) == 0 {
            return self.replace(rt, alloc, who, drawn);
        }
        self.change(alloc, who, drawn)
    }
}

// A session of so many turns, in whose end each list is looked at where it stands.
fn play<R: Abort>(rt: &R, alloc: Global, limit: u64, seed: u64) -> Result<(), Fail>
    requires some { 0 < limit }
    requires few { limit ≤ MAX_STAMP }
{
    let mut drawn = Drawn { state: seed };
    let mut twice = Twice::new(alloc, limit, &mut drawn)?;
    for _ in 0..TURNS {
        twice.turn(rt, alloc, &mut drawn)?;
    }
    for who in 0..CLIENTS {
        twice.look(rt, alloc, who)?;
    }
    Ok(())
}

#[test]
fn lists_that_lag_are_those_that_are_moved_at_each_change(rt: HostRuntime) -> Result<(), Fail> {
    for seed in 0..SEEDS {
        play(&rt, rt.alloc(), 1, seed)?;
        play(&rt, rt.alloc(), 3, seed)?;
        play(&rt, rt.alloc(), 40, seed)?;
        play(&rt, rt.alloc(), MAX_STAMP, seed)?;
    }
    Ok(())
}
