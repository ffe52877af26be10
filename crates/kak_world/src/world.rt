//! The world: its buffers, its clients, and the units of a step.

ghost use Rattle.std.specs.Prelude.{◌≡◌, suc, true, false, [], length, IfOk, IsTrue};
ghost use Rattle.std.specs.List.{AllByRecursion};
ghost use Rattle.kak_world.specs.Seen.{KeptIsSettled};
ghost use Rattle.kak_world.specs.Settled.{AllListsSettled};
ghost use Rattle.kak_world.specs.Flat.{scratch, between_steps, opening, is_joined, units_of, with_units, takes_turn, step_ended};
ghost use Rattle.kak_world.specs.Stored.{IsStepOf, first_stored, just_opened};
ghost use Rattle.list_shelf.specs.Shelves.{empty_shelf};
ghost use Rattle.change_list.specs.declared.log.TheConstants.{MAX_STAMP};

use crate::buffer::WorldBuffer;
use crate::clients::Clients;
use crate::events::Events;
use crate::turn::{AnyTurn, Turn};
use crate::turning::bring_turn_up;
use byte_texts::{Utf8Text, Words};
use face_texts::FaceTable;
use highlight_paint::Highlighters;
use kak_registers::Registers;
use kak_text::{Chars, Text};
use line_buffer::Lines;
use regex_ports::Pattern;
use scope_options::Options;
use scope_tables::Tables;
use std::alloc::{AllocError, Global};
use std::marker::{Model, PhantomData};

/// The most clients that there can be at once.
pub const MAX_CLIENTS: usize = 64;

/// What is known of the step that is under way.
#[derive(Drop, Debug)]
pub struct Stepping {
    /// How many keys and commands it may still run.
    pub units: u32,
    /// Whose step it is: the number of a client in the history.
    pub turn: Option<u32>,
    /// The words that the innermost defined command was given, where one runs.
    pub arguments: Option<Words>,
    /// The parameter of the innermost hook that runs, where one does.
    pub parameter: Option<Utf8Text>,
    /// The events whose hooks are still to be run, in order.
    pub due: Events,
    /// How many errors of hooks were told in it.
    pub faults: u64,
}

/// What is no buffer's and no client's.
#[derive(Drop, Debug)]
pub struct Rest {
    /// The step that is under way.
    pub step: Stepping,
    /// What all clients' registers hold.
    pub registers: Registers,
    /// What all options are set to.
    pub options: Options,
    /// The faces that are set.
    pub faces: FaceTable,
}

/// The state that all clients share, and what is each client's own, in a step `T`. Contracts see each pattern by the text that
/// it was made of, and beside the flat world how the lists of all clients are stored: what `T` says of others' when the step
/// began holds as long as the world is in it.
#[derive(Drop)]
pub struct World<P: Pattern, T: Turn> {
    // each at the place of its number
    pub(crate) buffers: Vec<Option<WorldBuffer>>,
    pub(crate) clients: Clients,
    pub(crate) rest: Rest,
    pub(crate) highlighters: Highlighters<P>,
    pub(crate) tables: Tables<P>,
    // whether a client's changes may be pending in a buffer: false only where they are in none
    pub(crate) may_pend: bool,
    // whether something may have become of a buffer since the step began: false only where nothing did of any
    pub(crate) may_differ: bool,
    pub(crate) step: PhantomData<T>,
}

impl<P: Pattern, T: Turn> Model for World<P, T> {
    ghost use Rattle.kak_world.specs.Seen.{Kept, all_seen, all_stored, BuffersStand};

    ghost Value = { Kept };

    ghost view = { λ w. record {
      flat = record {
        buffers = all_seen w.buffers.items;
        clients = w.clients;
        rest = w.rest;
        scoped = record { highlighters = w.highlighters; tables = w.tables };
      };
      stored = all_stored w.buffers.items;
    } };

    ghost invariant = { λ w. BuffersStand T.began w.may_pend w.may_differ w.rest.step.turn w.clients w.buffers.items };
}

// No step is under way.
fn between_steps(alloc: Global) -> Stepping
    ensures { result ≡ between_steps }
{
    Stepping {
        units: 0,
        turn: None,
        arguments: None,
        parameter: None,
        due: Events::new(alloc),
        faults: 0,
    }
}

// A step is over. The room for events stays.
fn end(step: &mut Stepping)
    ensures { step.new ≡ between_steps }
{
    step.units = 0;
    step.turn = None;
    step.arguments = None;
    step.parameter = None;
    step.due.clear();
    step.faults = 0;
}

/// The buffer that is there when nothing else is.
pub(crate) fn scratch_buffer(alloc: Global) -> Result<WorldBuffer, AllocError>
    ensures { IfOk result (λ b. (b.seen ≡ scratch) × (b.shelf.rows ≡ []) × (b.since.is_new ≡ true) × (b.shelf ≡ empty_shelf MAX_STAMP) × (b.since ≡ just_opened)) }
{
    let name = Chars::from_str(alloc, "*scratch*")?;
    let text = Text::newline(alloc)?;
    let lines = Lines::of_text(alloc, &text)?;
    WorldBuffer::new(alloc, name, false, lines)
}

// Each list on a buffer is settled, where there is one.
fn slot_is_settled(slot: &Option<WorldBuffer>)
    ensures { KeptIsSettled slot.now }
{
    match slot {
        None => {}
        Some(buffer) => buffer.lists_are_settled(),
    }
}

// Each list on each buffer is settled.
fn all_are_settled(buffers: &[Option<WorldBuffer>])
    ensures { AllByRecursion KeptIsSettled buffers.now }
{
    for slot in buffers {
        slot_is_settled(slot);
    }
}

impl<P: Pattern> World<P, AnyTurn> {
    /// The world before anything happened: the buffer `*scratch*` with a text of one newline, no client, the options and
    /// the faces that are given, and nothing that is kept by scope.
    pub fn new(alloc: Global) -> Result<World<P, AnyTurn>, AllocError>
        ensures { IfOk result (λ w. w ≡ record { flat = opening; stored = first_stored }) }
    {
        let mut buffers = Vec::new(alloc);
        buffers.push(Some(scratch_buffer(alloc)?))?;
        Ok(World {
            buffers,
            clients: Clients::new(alloc),
            rest: Rest {
                step: between_steps(alloc),
                registers: Registers::new(alloc),
                options: Options::new(alloc)?,
                faces: FaceTable::given(alloc)?,
            },
            highlighters: Highlighters::new(alloc),
            tables: Tables::new(alloc),
            may_pend: true,
            may_differ: true,
            step: PhantomData,
        })
    }
}

#[tactic(auto, unfolding(crate::specs::Flat::rest_of, crate::specs::Flat::with_rest))]
impl<P: Pattern, T: Turn> World<P, T> {
    /// A law: every list on every buffer is settled, and lies inside the buffer's text.
    pub fn lists_are_held(&self)
        ensures { AllListsSettled self.now.flat }
    {
        all_are_settled(self.buffers.as_slice());
    }

    /// How many clients have joined and not left.
    pub fn client_count(&self) -> usize
        ensures { result ≡ length self.now.flat.clients }
    {
        self.clients.len()
    }

    /// A step of a client begins: it is its turn. Its selections can be read then, and no other client's: they go through the changes
    /// of the text that it sees which they missed, and what no list has yet to go through then is dropped. Takes no memory.
    pub fn enter(&mut self, who: u32)
        requires joined { is_joined who self.old.flat ≡ true }
        requires own { IsStepOf who T.began }
        ensures { self.new.flat ≡ takes_turn who self.old.flat }
    {
        self.rest.step.turn = Some(who);
        bring_turn_up(&mut self.buffers, &self.clients, self.rest.step.turn);
    }

    /// The step is over: it is nobody's turn, no unit is left, and what was to be run still isn't.
    pub fn end_step(&mut self)
        ensures { self.new.flat ≡ step_ended self.old.flat }
    {
        end(&mut self.rest.step);
    }

    /// How many keys and commands the step may still run.
    pub fn units(&self) -> u32
        ensures { result ≡ units_of self.now.flat }
    {
        self.rest.step.units
    }

    /// Sets how many keys and commands the step may run.
    pub fn set_units(&mut self, units: u32)
        ensures { self.new.flat ≡ with_units units self.old.flat }
    {
        self.rest.step.units = units;
    }

    /// Takes one unit, where one is left, and tells whether one was.
    pub fn take_unit(&mut self) -> bool
        ensures taken { IsTrue result → (units_of self.old.flat ≡ suc (units_of self.new.flat)) × (self.new.flat ≡ with_units (units_of self.new.flat) self.old.flat) }
        ensures none { result ≡ false → (units_of self.old.flat ≡ 0) × (self.new.flat ≡ self.old.flat) }
    {
        if self.rest.step.units == 0 {
            return false;
        }
        self.rest.step.units -= 1;
        true
    }
}
