//! What is kept follows the changes of its text.

ghost use Rattle.std.specs.Prelude.{◌≡◌, ◌<◌, OnOk, OnErr};
ghost use Rattle.change_list.specs.Logs.{stamp_of};
ghost use Rattle.list_shelf.specs.Shelves.{brought_up, room_made, noted, all_noted, all_moved};
ghost use Rattle.list_archive.specs.Archives.{archive_carried, archive_room, archive_noted, least_kept, trimmed_with, IsArchiveCarriable, CanStandWith, CanFollowWith};

use crate::archive::Archive;
use crate::marks::{carry_marks, least_mark};
use crate::trails::{carry_trails, least_trail};
use list_shelf::{Holder, Shelf, SliceLog};
use std::alloc::AllocError;
use text_model::Shift;

impl Archive {
    // Brings all lists up to date and through further shifts, for a log that begins again.
    fn carry(&mut self, log: &SliceLog, shifts: &[Shift])
        requires { IsArchiveCarriable log.now shifts.now self.old }
        ensures { self.new ≡ archive_carried log.now shifts.now self.old }
    {
        self.saved.carry(log, shifts);
        carry_trails(&mut self.trails, log, shifts);
        carry_marks(&mut self.marks, log, shifts);
    }

    // Makes room for one shift more: where the log stands at its limit, all lists are brought up to date, and it begins again.
    fn make_room(&mut self, shelf: &mut Shelf)
        requires { CanStandWith shelf.old self.old }
        ensures shelf { shelf.new ≡ room_made shelf.old }
        ensures kept { self.new ≡ archive_room shelf.old self.old }
        ensures room { stamp_of shelf.new.log < shelf.new.limit }
    {
        if shelf.has_room(1) {
            return;
        }
        self.carry(shelf.log(), &[]);
        shelf.begin_again();
    }

    // Notes a shift, the first of some; where memory is wanting, all lists go through all of these in its place.
    fn note_first(
        &mut self,
        shelf: &mut Shelf,
        first: Shift,
        shifts: &[Shift],
    ) -> Result<(), AllocError>
        requires { CanFollowWith shelf.old self.old shifts.now }
        ensures shelf_ok { OnOk result (shelf.new ≡ noted first shelf.old) }
        ensures kept_ok { OnOk result (self.new ≡ archive_room shelf.old self.old) }
        ensures shelf_err { OnErr result (shelf.new ≡ all_moved shifts.now shelf.old) }
        ensures kept_err { OnErr result (self.new ≡ archive_carried shelf.old.log shifts.now self.old) }
    {
        self.make_room(shelf);
        if shelf.push(first).is_err() {
            self.carry(shelf.log(), shifts);
            shelf.move_through(shifts);
            return Err(AllocError);
        }
        Ok(())
    }

    /// Notes the shifts of changes of the text, one after another, on the shelf. Lists stay where they stand, but where one more
    /// shift is due and the log stands at its limit: then all lists are brought up to date, on the shelf and kept, and the log begins again.
    /// Where memory is wanting, no shift is lost either: all lists are brought up to date, through all of the shifts.
    pub fn note(&mut self, shelf: &mut Shelf, shifts: &[Shift]) -> Result<(), AllocError>
        requires { CanFollowWith shelf.old self.old shifts.now }
        ensures shelf_ok { OnOk result (shelf.new ≡ all_noted shifts.now shelf.old) }
        ensures kept_ok { OnOk result (self.new ≡ archive_noted shifts.now shelf.old self.old) }
        ensures shelf_err { OnErr result (shelf.new ≡ all_moved shifts.now shelf.old) }
        ensures kept_err { OnErr result (self.new ≡ archive_carried shelf.old.log shifts.now self.old) }
    {
        let mut rest = shifts;
        while let Some((first, others)) = rest.split_first() {
            self.note_first(shelf, *first, rest)?;
            rest = others;
        }
        Ok(())
    }

    // The least of a stamp and of those at which lists stand.
    fn least(&self, stamp: u64) -> u64
        ensures { result ≡ least_kept stamp self.now }
    {
        let saved = self.saved.least(stamp);
        let trails = least_trail(self.trails.as_slice(), saved);
        least_mark(self.marks.as_slice(), trails)
    }

    /// Drops the shifts that no list has yet to go through, on the shelf or kept. Takes no memory.
    pub fn trim(&self, shelf: &mut Shelf)
        requires { CanStandWith shelf.old self.now }
        ensures { shelf.new ≡ trimmed_with self.now shelf.old }
    {
        let to = self.least(shelf.log().stamp());
        shelf.trim_before(to);
    }

    /// Brings a holder's list up to date, where it has one, and drops the shifts that no list has yet to go through then; all
    /// other lists and their stamps are left. Takes no memory.
    pub fn enter(&self, shelf: &mut Shelf, holder: Holder)
        requires { CanStandWith shelf.old self.now }
        ensures { shelf.new ≡ trimmed_with self.now (brought_up holder shelf.old) }
    {
        shelf.bring_up(holder);
        self.trim(shelf);
    }
}
