//! What the world says of a client that has joined, and what is changed for it alone.

ghost use Rattle.std.specs.Prelude.{◌≡◌, ◌<◌, ◌≤◌, ◌+◌, ◌^◌, ◌&&◌, true, length, slice_index_or, None, IfOk};
ghost use Rattle.std.specs.Borrow.{sem};
ghost use Rattle.selection_set.specs.Held.{selected, IsHeld};
ghost use Rattle.window_view.specs.View.{followed};
ghost use Rattle.window_view.specs.Views.{window_seen};
ghost use Rattle.window_view.specs.Sizes.{corner_of};
ghost use Rattle.std.specs.Option.{option_copied};
ghost use Rattle.list_shelf.specs.declared.holder.Holder.TheVariants.{Of};
ghost use Rattle.list_shelf.specs.Shelves.{IsUp};
ghost use Rattle.kak_world.specs.Seen.{slot_seen, all_seen};
ghost use Rattle.kak_world.specs.Flat.{is_there, turn_of, is_turn_of, shown_of, buffer_at, has_list, is_joined, acts, buffer_of, own_of, number_of, name_of, text_of, sels_of, view_of, with_sels, with_corner};

use crate::buffer::WorldBuffer;
use crate::own::Own;
use crate::turn::Turn;
use crate::world::World;
use line_buffer::Lines;
use list_shelf::Holder;
use regex_ports::Pattern;
use selection_set::Sels;
use std::alloc::{AllocError, Global};
use window_view::{Corner, Window};

// Whether a number is that of a buffer on which a holder has a list.
fn has_list_at(buffers: &[Option<WorldBuffer>], n: u32, holder: Holder) -> bool
    ensures { result ≡ (is_there n (all_seen buffers.now) && has_list holder (buffer_at n (all_seen buffers.now))) }
{
    if n as usize >= buffers.len() {
        return false;
    }
    match &buffers[n as usize] {
        None => false,
        Some(buffer) => buffer.has_list(holder),
    }
}

impl<P: Pattern, T: Turn> World<P, T> {
    ghost use Rattle.kak_world.specs.LendingWorld.{LendsOwn};

    // The buffer that a client sees; its list there is up to date where it is its turn.
    pub(crate) fn shown(&self, who: u32) -> &WorldBuffer
        requires { is_joined who self.now.flat ≡ true }
        ensures seen { result.now.seen ≡ buffer_of who self.now.flat }
        ensures up { is_turn_of who (turn_of self.now.flat) ≡ true → IsUp (Of who) result.now.shelf }
    {
        let client = self.clients.client(who);
        match &self.buffers[client.shown as usize] {
            None => unreachable!(),
            Some(buffer) => buffer,
        }
    }

    /// The number of the buffer that a client sees.
    pub fn shown_number(&self, who: u32) -> u32
        requires { is_joined who self.now.flat ≡ true }
        ensures { result ≡ shown_of who self.now.flat }
    {
        self.clients.client(who).shown
    }

    /// The buffer of a number, if there is one.
    pub fn buffer(&self, n: u32) -> Option<&WorldBuffer>
        ensures { slot_seen (option_copied result) ≡ slice_index_or self.now.flat.buffers n None }
    {
        if n as usize >= self.buffers.len() {
            return None;
        }
        self.buffers[n as usize].as_ref()
    }

    /// Whether a client has joined and not left.
    pub fn is_joined(&self, who: u32) -> bool
        ensures { result ≡ is_joined who self.now.flat }
    {
        if !self.clients.is_here(who) {
            return false;
        }
        let client = self.clients.client(who);
        has_list_at(self.buffers.as_slice(), client.shown, Holder::Of(who))
    }

    /// Whether a client has joined, and it is its turn.
    #[tactic(auto, unfolding(crate::specs::Flat::acts, crate::specs::Flat::rest_of))]
    pub fn acts(&self, who: u32) -> bool
        ensures { result ≡ acts who self.now.flat }
    {
        if !self.is_joined(who) {
            return false;
        }
        match self.rest.step.turn {
            None => false,
            Some(number) => number == who,
        }
    }

    /// What is a client's own.
    pub fn own(&self, who: u32) -> &Own
        requires { is_joined who self.now.flat ≡ true }
        ensures { result.now ≡ own_of who self.now.flat }
    {
        let client = self.clients.client(who);
        &client.own
    }

    /// What is a client's own, to be changed.
    pub fn own_mut(&mut self, who: u32) -> &mut Own
        requires { is_joined who self.old.flat ≡ true }
        ensures* writes_back { sem 𝓛 (LendsOwn P.row T.row P.Pattern T.Turn self.entry who result) }
        ensures value { result.now ≡ own_of who self.old.flat }
    {
        self.clients.own_mut(who)
    }

    /// The number in a client's name.
    pub fn number(&self, who: u32) -> u32
        requires { is_joined who self.now.flat ≡ true }
        ensures { result ≡ number_of who self.now.flat }
    {
        let client = self.clients.client(who);
        client.number
    }

    /// The name of the buffer that a client sees.
    pub fn buffer_name(&self, who: u32) -> &[char]
        requires { is_joined who self.now.flat ≡ true }
        ensures { result.now ≡ name_of who self.now.flat }
    {
        self.shown(who).name()
    }

    /// The text that a client sees.
    pub fn lines(&self, who: u32) -> &Lines
        requires { is_joined who self.now.flat ≡ true }
        ensures { result.now ≡ text_of who self.now.flat }
    {
        self.shown(who).lines()
    }

    /// The selections of a client whose turn it is: a settled list inside the text that it sees.
    pub fn sels(&self, who: u32) -> &Sels
        requires { acts who self.now.flat ≡ true }
        ensures sels { sels_of who self.now.flat ≡ selected (text_of who self.now.flat) result.now }
        ensures held { IsHeld (text_of who self.now.flat) result.now }
    {
        self.shown(who).sels(Holder::Of(who))
    }

    /// How many selections a client has, whoever's turn it is. An `Err` is want of memory.
    pub fn sel_count(&self, alloc: Global, who: u32) -> Result<usize, AllocError>
        requires { is_joined who self.now.flat ≡ true }
        ensures { IfOk result (λ count. count ≡ length (sels_of who self.now.flat).list) }
    {
        self.shown(who).sel_count(alloc, Holder::Of(who))
    }

    /// The window through which a client sees its buffer: it stands where the client left it there, and has the size that all
    /// windows of the client have.
    pub fn window(&self, who: u32) -> Window
        requires { is_joined who self.now.flat ≡ true }
        ensures { window_seen result ≡ view_of who self.now.flat }
    {
        let own = self.own(who);
        Window::of(self.shown(who).corner(Holder::Of(who)), own.size)
    }

    /// Changes the selections of a client whose turn it is, to a settled list inside the text that it sees.
    pub fn set_sels(&mut self, who: u32, sels: Sels)
        requires acts { acts who self.old.flat ≡ true }
        requires held { IsHeld (text_of who self.old.flat) sels }
        ensures { self.new.flat ≡ with_sels who (selected (text_of who self.old.flat) sels) self.old.flat }
    {
        let n = self.clients.client(who).shown as usize;
        match &mut self.buffers[n] {
            None => unreachable!(),
            Some(buffer) => buffer.set_sels(Holder::Of(who), sels),
        }
    }

    /// Makes the n-th selection of a client whose turn it is its main one.
    pub fn set_main(&mut self, who: u32, n: usize)
        requires acts { acts who self.old.flat ≡ true }
        requires there { n < length (sels_of who self.old.flat).list }
        ensures { self.new.flat ≡ with_sels who (record { list = (sels_of who self.old.flat).list; main = n }) self.old.flat }
    {
        let shown = self.clients.client(who).shown as usize;
        match &mut self.buffers[shown] {
            None => unreachable!(),
            Some(buffer) => buffer.set_main(Holder::Of(who), n),
        }
    }

    /// Lets the window of a client whose turn it is stand elsewhere on the buffer that it sees.
    pub fn set_corner(&mut self, who: u32, corner: Corner)
        requires { acts who self.old.flat ≡ true }
        ensures { self.new.flat ≡ with_corner who corner self.old.flat }
    {
        let n = self.clients.client(who).shown as usize;
        match &mut self.buffers[n] {
            None => unreachable!(),
            Some(buffer) => buffer.set_corner(Holder::Of(who), corner),
        }
    }

    /// Lets the window of a client whose turn it is follow a cursor: its line, the display column of its first cell, the number of its
    /// cells, and the number of cells that stand before the text. Its corner alone changes, and that on this buffer alone.
    #[tactic(auto, using(crate::proofs::WorldLaws::acts_joined))]
    pub fn follow(&mut self, who: u32, line: u32, column: u32, width: u32, gutter: u32)
        requires acts { acts who self.old.flat ≡ true }
        requires fits { column + width < 2 ^ 32 }
        ensures { self.new.flat ≡ with_corner who (corner_of (followed (view_of who self.old.flat) line column width gutter)) self.old.flat }
    {
        let mut window = self.window(who);
        window.follow(line, column, width, gutter);
        self.set_corner(who, window.corner());
    }
}
