//! What is kept on one text.

ghost use Rattle.std.specs.Prelude.{◌≡◌, ◌≤◌, true, length, IfOk, IsOk, OnOk, OnErr};
ghost use Rattle.list_shelf.specs.declared.holder.Holder.TheVariants.{Of};
ghost use Rattle.list_shelf.specs.Shelves.{has_row, with_sels, CanStand};
ghost use Rattle.list_archive.specs.Archives.{empty_archive, own_lag, own_up, same_saved, unsaved, parted, left_by, is_had_by};

use crate::marks::MarkRow;
use crate::saved::Saved;
use crate::trails::TrailRow;
use list_shelf::{Holder, Lag, Shelf};
use selection_set::Sels;
use std::alloc::{AllocError, Global};
use std::marker::Model;

/// What is kept on one text, beside the shelf of the lists that clients have. Contracts see it as it is stored; from that, and
/// from the shelf, follows what each list would be if it had been moved at every change.
#[derive(Drop, Debug)]
pub struct Archive {
    pub(crate) saved: Saved,
    pub(crate) trails: Vec<TrailRow>,
    pub(crate) marks: Vec<MarkRow>,
}

impl Model for Archive {
    ghost use Rattle.list_archive.specs.Archives.{Archived};

    ghost Value = { Archived };

    ghost view = { λ a. record { saved = a.saved; trails = a.trails.items; marks = a.marks.items } };
}

impl Archive {
    /// Nothing is kept. Takes no memory.
    pub fn new(alloc: Global) -> Archive
        ensures { result ≡ empty_archive }
    {
        Archive {
            saved: Saved::Nothing,
            trails: Vec::new(alloc),
            marks: Vec::new(alloc),
        }
    }

    /// Saves the list that a client has, in place of one that was saved before. Nothing is copied: as long as the client has that list,
    /// each change moves both alike. Takes no memory.
    pub fn save(&mut self, who: u32)
        ensures { self.new ≡ same_saved who self.old }
    {
        self.saved = Saved::Same(who);
    }

    /// Drops the saved list. Takes no memory.
    pub fn drop_saved(&mut self)
        ensures { self.new ≡ unsaved self.old }
    {
        self.saved = Saved::Nothing;
    }

    /// Gives a client another list, of the text as it is now. Where the one that it had is the saved one, it is kept as that, and
    /// isn't copied. Takes no memory.
    pub fn set_sels(&mut self, shelf: &mut Shelf, who: u32, sels: Sels)
        requires { has_row (Of who) shelf.old ≡ true }
        ensures shelf { shelf.new ≡ with_sels (Of who) sels shelf.old }
        ensures kept { self.new ≡ left_by who (own_lag who shelf.old) self.old }
    {
        let mut lag = Lag {
            stamp: shelf.log().stamp(),
            sels,
        };
        shelf.swap_lag(Holder::Of(who), &mut lag);
        self.saved.leave(who, lag);
    }

    /// A copy of a client's list as it is now. Takes no memory for at most four selections.
    pub(crate) fn own_copy(alloc: Global, shelf: &Shelf, who: u32) -> Result<Lag, AllocError>
        requires list { has_row (Of who) shelf.now ≡ true }
        requires can { CanStand shelf.now }
        ensures ok { IfOk result (λ lag. lag ≡ own_up who shelf.now) }
        ensures few { length (own_lag who shelf.now).sels.list ≤ 4 → IsOk result }
    {
        let sels = shelf.copy_of(alloc, Holder::Of(who))?;
        Ok(Lag {
            stamp: shelf.log().stamp(),
            sels,
        })
    }

    /// Whether the saved list is that of a client, which has it still.
    pub fn is_had_by(&self, who: u32) -> bool
        ensures { result ≡ is_had_by who self.now.saved }
    {
        self.saved.is_had_by(who)
    }

    /// Lets the saved list be one of its own: where a client has it still, it is copied. An `Err` leaves all. Takes no memory for at most
    /// four selections.
    pub fn part(&mut self, alloc: Global, shelf: &Shelf, who: u32) -> Result<(), AllocError>
        requires list { has_row (Of who) shelf.now ≡ true }
        requires can { CanStand shelf.now }
        ensures ok { OnOk result (self.new ≡ parted who shelf.now self.old) }
        ensures few { length (own_lag who shelf.now).sels.list ≤ 4 → IsOk result }
        ensures err { OnErr result (self.new ≡ self.old) }
    {
        if !self.saved.is_had_by(who) {
            return Ok(());
        }
        let lag = Archive::own_copy(alloc, shelf, who)?;
        self.saved = Saved::Own(who, lag);
        Ok(())
    }
}
