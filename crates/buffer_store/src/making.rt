//! Making changes of a text that are kept, and taking them back.

ghost use Rattle.std.specs.Prelude.{◌≡◌, ℕ, ◌+◌, ◌++◌, ◌⊎◌, [], ◌∷◌, length, IfOk, OnOk, OnErr, IsTrue};
ghost use Rattle.text_model.specs.Texts.{IsStored, IsPlaceOrEnd, offset};
ghost use Rattle.text_model.specs.Changes.{Insertion, Erasure, changed};
ghost use Rattle.undo_model.specs.Steps.{IsStep};
ghost use Rattle.buffer_store.specs.Stored.{turn, flat, flat_back, shift_of, KeptFits, AllFit, flats, backs, IsMade};
ghost use Rattle.buffer_store.specs.Traces.{trace, trace_after, IsAfterSome};

use crate::marking::mark_of;
use change_list::Change;
use kak_text::{Coord, Shift};
use line_buffer::{Lines, LinesError};
use selection_set::Sel;
use std::alloc::{AllocError, Global};

/// Makes a change that fits the text, and gives its shift. After an error the text is as it was.
pub fn make(lines: &mut Lines, alloc: Global, change: &Change) -> Result<Shift, AllocError>
    requires { KeptFits lines.old change.now }
    ensures text { OnOk result (lines.new ≡ changed lines.old (flat lines.old change.now)) }
    ensures shift { IfOk result (λ s. s ≡ shift_of lines.old (flat lines.old change.now)) }
    ensures made { OnOk result (IsMade lines.new (change.now ∷ [])) }
    ensures err { OnErr result (lines.new ≡ lines.old) }
{
    let shift = change.shift;
    turn(
        lines,
        alloc,
        shift.insert,
        shift.begin,
        shift.end,
        change.chars.as_slice(),
    )
}

/// Takes the last change of a text back, and gives the shift of that. After an error the text is as it was.
pub fn take_back(lines: &mut Lines, alloc: Global, change: &Change) -> Result<Shift, AllocError>
    requires { IsMade lines.old (change.now ∷ []) }
    ensures text { OnOk result (lines.new ≡ changed lines.old (flat_back lines.old change.now)) }
    ensures shift { IfOk result (λ s. s ≡ shift_of lines.old (flat_back lines.old change.now)) }
    ensures fits { OnOk result (KeptFits lines.new change.now) }
    ensures err { OnErr result (lines.new ≡ lines.old) }
{
    let shift = change.shift;
    turn(
        lines,
        alloc,
        !shift.insert,
        shift.begin,
        shift.end,
        change.chars.as_slice(),
    )
}

/// Makes changes that fit the text, one after another, and adds the shift and the mark of each to lists. After an error the
/// text is as it is behind some of them, and these are the shifts and marks of those.
pub(crate) fn make_all(
    lines: &mut Lines,
    alloc: Global,
    changes: &[Change],
    shifts: &mut Vec<Shift>,
    marks: &mut Vec<Sel>,
) -> Result<(), AllocError>
    requires { AllFit lines.old changes.now }
    ensures ok { OnOk result (trace lines.new shifts.new.items marks.new.items
        ≡ trace_after (trace lines.old shifts.old.items marks.old.items) (flats lines.old changes.now)) }
    ensures err { OnErr result (IsAfterSome (trace lines.old shifts.old.items marks.old.items)
        (flats lines.old changes.now) (trace lines.new shifts.new.items marks.new.items)) }
{
    for change in changes {
        make_noted(lines, alloc, change, shifts, marks)?;
    }
    Ok(())
}

/// Takes the last changes of a text back, from the last to the first, and adds the shift and the mark of each to lists. After
/// an error the text is as it is behind some of that, and these are the shifts and marks of that.
pub(crate) fn take_all_back(
    lines: &mut Lines,
    alloc: Global,
    changes: &[Change],
    shifts: &mut Vec<Shift>,
    marks: &mut Vec<Sel>,
) -> Result<(), AllocError>
    requires { IsMade lines.old changes.now }
    ensures ok { OnOk result (trace lines.new shifts.new.items marks.new.items
        ≡ trace_after (trace lines.old shifts.old.items marks.old.items) (backs lines.old changes.now)) }
    ensures err { OnErr result (IsAfterSome (trace lines.old shifts.old.items marks.old.items)
        (backs lines.old changes.now) (trace lines.new shifts.new.items marks.new.items)) }
{
    let mut left = changes.len();
    while left > 0 {
        left -= 1;
        take_back_noted(lines, alloc, &changes[left], shifts, marks)?;
    }
    Ok(())
}

// Makes a change that fits the text, and adds its shift and its mark to lists. After an error all is as it was.
fn make_noted(
    lines: &mut Lines,
    alloc: Global,
    change: &Change,
    shifts: &mut Vec<Shift>,
    marks: &mut Vec<Sel>,
) -> Result<(), AllocError>
    requires { KeptFits lines.old change.now }
    ensures ok { OnOk result (trace lines.new shifts.new.items marks.new.items
        ≡ trace_after (trace lines.old shifts.old.items marks.old.items) (flat lines.old change.now ∷ [])) }
    ensures err { OnErr result (trace lines.new shifts.new.items marks.new.items ≡ trace lines.old shifts.old.items marks.old.items) }
{
    shifts.reserve(1)?;
    marks.reserve(1)?;
    let shift = make(lines, alloc, change)?;
    let mark = mark_of(lines, shift);
    shifts.push_reserved(shift);
    marks.push_reserved(mark);
    Ok(())
}

// Takes the last change of a text back, and adds the shift and the mark of that to lists. After an error all is as it was.
fn take_back_noted(
    lines: &mut Lines,
    alloc: Global,
    change: &Change,
    shifts: &mut Vec<Shift>,
    marks: &mut Vec<Sel>,
) -> Result<(), AllocError>
    requires { IsMade lines.old (change.now ∷ []) }
    ensures ok { OnOk result (trace lines.new shifts.new.items marks.new.items
        ≡ trace_after (trace lines.old shifts.old.items marks.old.items) (flat_back lines.old change.now ∷ [])) }
    ensures err { OnErr result (trace lines.new shifts.new.items marks.new.items ≡ trace lines.old shifts.old.items marks.old.items) }
{
    shifts.reserve(1)?;
    marks.reserve(1)?;
    let shift = take_back(lines, alloc, change)?;
    let mark = mark_of(lines, shift);
    shifts.push_reserved(shift);
    marks.push_reserved(mark);
    Ok(())
}

// Puts characters in at a coordinate, or takes them out up to another.
fn turn(
    lines: &mut Lines,
    alloc: Global,
    insert: bool,
    begin: Coord,
    end: Coord,
    chars: &[char],
) -> Result<Shift, AllocError>
    requires begin { IsPlaceOrEnd lines.old begin }
    requires end { IsTrue insert ⊎ (IsPlaceOrEnd lines.old end × (offset lines.old end ≡ offset lines.old begin + length chars.now)) }
    requires step { IsStep lines.old (turn insert (offset lines.old begin) chars.now) }
    ensures text { OnOk result (lines.new ≡ changed lines.old (turn insert (offset lines.old begin) chars.now)) }
    ensures shift { IfOk result (λ s. s ≡ shift_of lines.old (turn insert (offset lines.old begin) chars.now)) }
    ensures err { OnErr result (lines.new ≡ lines.old) }
{
    if insert {
        return put_in(lines, alloc, begin, chars);
    }
    take_out(lines, alloc, begin, end)
}

// Puts characters in at a coordinate; what is put in there is what is given.
fn put_in(lines: &mut Lines, alloc: Global, at: Coord, chars: &[char]) -> Result<Shift, AllocError>
    requires at { IsPlaceOrEnd lines.old at }
    requires step { IsStep lines.old (Insertion (offset lines.old at) chars.now) }
    ensures text { OnOk result (lines.new ≡ changed lines.old (Insertion (offset lines.old at) chars.now)) }
    ensures shift { IfOk result (λ s. s ≡ shift_of lines.old (Insertion (offset lines.old at) chars.now)) }
    ensures err { OnErr result (lines.new ≡ lines.old) }
{
    match lines.insert(alloc, at, chars) {
        Ok(shift) => Ok(shift),
        Err(LinesError::NoMemory) => Err(AllocError),
        Err(LinesError::TextFull) => unreachable!(),
    }
}

// Takes the characters from a coordinate to before another out; what is taken is what is given.
fn take_out(lines: &mut Lines, alloc: Global, from: Coord, to: Coord) -> Result<Shift, AllocError>
    requires from { IsPlaceOrEnd lines.old from }
    requires to { IsPlaceOrEnd lines.old to }
    requires step { IsStep lines.old (Erasure (offset lines.old from) (offset lines.old to)) }
    ensures text { OnOk result (lines.new ≡ changed lines.old (Erasure (offset lines.old from) (offset lines.old to))) }
    ensures shift { IfOk result (λ s. s ≡ shift_of lines.old (Erasure (offset lines.old from) (offset lines.old to))) }
    ensures err { OnErr result (lines.new ≡ lines.old) }
{
    let (shift, _) = lines.erase(alloc, from, to)?;
    Ok(shift)
}
