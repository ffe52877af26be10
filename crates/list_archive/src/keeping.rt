//! What a client can take back and redo, and the marks of registers.

ghost use Rattle.std.specs.Prelude.{◌≡◌, ◌∷◌, ◌++◌, ◌==◌, ◌&&◌, not, [], true, IfOk, OnOk, OnErr, option_map};
ghost use Rattle.change_list.specs.Logs.{stamp_of};
ghost use Rattle.list_shelf.specs.declared.holder.Holder.TheVariants.{Of};
ghost use Rattle.list_shelf.specs.Lagging.{seen_by};
ghost use Rattle.list_shelf.specs.Shelves.{has_row};
ghost use Rattle.list_archive.specs.Trails.{last_before, next_ahead, mark_of, marked, unmarked, gone_on, trail_of};
ghost use Rattle.list_archive.specs.Archives.{own_lag, own_up, alike_listed, unsaved, saved_kept_in, archived_without, newest_lags, AreAllLagging, AreMarksLagging, WasUndone, WasRedone, CanStandWith};

use crate::alike::alike;
use crate::archive::Archive;
use crate::marks::{MarkRow, place_of_mark};
use crate::saved::Saved;
use crate::trails::{TrailRow, place_of_trail};
use list_shelf::{Holder, Lag, Shelf, SliceLog, catch_up, copy_up};
use selection_set::Sels;
use std::alloc::{AllocError, Global};

// Whether a saved list, which is up to date, is a client's own, and isn't alike to the one that it has.
fn has_left(shelf: &Shelf, who: u32, number: u32, lag: &Lag) -> bool
    requires list { has_row (Of who) shelf.now ≡ true }
    requires up { (own_lag who shelf.now).stamp ≡ stamp_of shelf.now.log }
    ensures { result ≡ (number == who && not (alike_listed lag.now.sels (own_lag who shelf.now).sels)) }
{
    if number != who {
        return false;
    }
    !alike(&lag.sels, shelf.sels(Holder::Of(who)))
}

// A client went on from a list, which is up to date, to another one. An `Err` leaves the trails.
fn go_on(
    trails: &mut Vec<TrailRow>,
    alloc: Global,
    log: &SliceLog,
    who: u32,
    lag: Lag,
) -> Result<(), AllocError>
    requires lagging { AreAllLagging log.now ((trail_of who trails.old.items).past ++ lag ∷ []) }
    requires up { lag.stamp ≡ stamp_of log.now }
    ensures ok { OnOk result (trails.new.items ≡ gone_on (newest_lags log.now) who lag trails.old.items) }
    ensures err { OnErr result (trails.new.items ≡ trails.old.items) }
{
    let at = place_of_trail(trails.as_slice(), who);
    if at < trails.len() {
        let trail = &mut trails[at];
        return trail.go_on(log, lag);
    }
    trails.push(TrailRow::new(alloc, who, lag)?)?;
    Ok(())
}

impl Archive {
    /// A client's key event ends. Where the saved list is its own, and isn't alike to the one that it has, it goes behind those that the
    /// client can take back, of which the newest are kept, and what it took back is forgotten. No list is saved then, also after an `Err`.
    pub fn keep(&mut self, alloc: Global, shelf: &Shelf, who: u32) -> Result<(), AllocError>
        requires list { has_row (Of who) shelf.now ≡ true }
        requires up { (own_lag who shelf.now).stamp ≡ stamp_of shelf.now.log }
        requires can { CanStandWith shelf.now self.old }
        ensures ok { OnOk result (self.new ≡ saved_kept_in who shelf.now self.old) }
        ensures err { OnErr result (self.new ≡ unsaved self.old) }
    {
        let Saved::Own(number, lag) = std::mem::replace(&mut self.saved, Saved::Nothing) else {
            return Ok(());
        };
        let log = shelf.log();
        let mut lag = lag;
        catch_up(&mut lag, log);
        if has_left(shelf, who, number, &lag) {
            return go_on(&mut self.trails, alloc, log, who, lag);
        }
        Ok(())
    }

    /// A client takes its list back: it has the one before it again, and tells whether there is one. Takes no memory.
    pub fn undo(&mut self, shelf: &mut Shelf, who: u32) -> bool
        requires list { has_row (Of who) shelf.old ≡ true }
        requires can { CanStandWith shelf.old self.old }
        ensures { WasUndone who (last_before who self.old.trails) result shelf.old self.old shelf.new self.new }
    {
        let at = place_of_trail(self.trails.as_slice(), who);
        if at >= self.trails.len() {
            return false;
        }
        let trail = &mut self.trails[at];
        trail.go_back(shelf)
    }

    /// A client has the nearest list again that it took back, and tells whether there is one. Takes no memory.
    pub fn redo(&mut self, shelf: &mut Shelf, who: u32) -> bool
        requires list { has_row (Of who) shelf.old ≡ true }
        requires can { CanStandWith shelf.old self.old }
        ensures { WasRedone who (next_ahead who self.old.trails) result shelf.old self.old shelf.new self.new }
    {
        let at = place_of_trail(self.trails.as_slice(), who);
        if at >= self.trails.len() {
            return false;
        }
        let trail = &mut self.trails[at];
        trail.go_forward(shelf)
    }

    /// Makes a copy of a client's list the mark of a register. An `Err` leaves the marks.
    pub fn mark(
        &mut self,
        alloc: Global,
        shelf: &Shelf,
        who: u32,
        register: char,
    ) -> Result<(), AllocError>
        requires list { has_row (Of who) shelf.now ≡ true }
        requires can { CanStandWith shelf.now self.old }
        ensures ok { OnOk result (self.new ≡ record self.old { marks = marked register (own_up who shelf.now) self.old.marks }) }
        ensures err { OnErr result (self.new ≡ self.old) }
    {
        let lag = Archive::own_copy(alloc, shelf, who)?;
        let at = place_of_mark(self.marks.as_slice(), register);
        if at < self.marks.len() {
            let mark = &mut self.marks[at];
            mark.set_lag(lag);
            return Ok(());
        }
        self.marks.push(MarkRow::new(register, lag))?;
        Ok(())
    }

    /// Takes a register's mark off. Takes no memory.
    pub fn unmark(&mut self, register: char)
        ensures { self.new ≡ record self.old { marks = unmarked register self.old.marks } }
    {
        self.marks.retain(|mark| mark.register() != register);
    }

    /// A copy of the list of a register's mark as it is now, where there is one.
    pub fn copy_of_mark(
        &self,
        alloc: Global,
        log: &SliceLog,
        register: char,
    ) -> Result<Option<Sels>, AllocError>
        requires { AreMarksLagging log.now self.now.marks }
        ensures { IfOk result (λ sels. sels ≡ option_map (seen_by log.now) (mark_of register self.now.marks)) }
    {
        let at = place_of_mark(self.marks.as_slice(), register);
        if at >= self.marks.len() {
            return Ok(None);
        }
        let mark = &self.marks[at];
        Ok(Some(copy_up(mark.lag(), alloc, log)?))
    }

    /// A client leaves: what was kept for it goes. Takes no memory.
    pub fn leave(&mut self, who: u32)
        ensures { self.new ≡ archived_without who self.old }
    {
        self.saved.forget(who);
        self.trails.retain(|trail| trail.who() != who);
    }
}
