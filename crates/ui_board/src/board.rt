//! A board of user interfaces, each at a seat with a number.

ghost use Rattle.std.specs.Prelude.{◌≡◌, ◌<◌, ◌^◌, [], length, map, Some, None, IfOk, OnOk, OnErr, option_map};
ghost use Rattle.ui_board.specs.Told.{Drawn, Refused, telling};
ghost use Rattle.ui_board.specs.Boards.{seat_at, box_at, IsTaken, free_seat, seated, left_at, is_free, OthersStay, report_at};

use crate::ui::Ui;
use drawings::{Drawing, Refusal};
use std::alloc::{AllocError, Global};

/// User interfaces by the numbers of their seats, which are from 0 to 4,294,967,295.
#[derive(Drop)]
pub struct Board<U> {
    // the one at each seat, none where the seat is free
    seats: Vec<Option<U>>,
}

impl<U: Ui> Board<U> {
    /// A board on which all seats are free; takes no memory.
    pub fn new(alloc: Global) -> Board<U>
        ensures { result.seats.items ≡ [] }
    {
        Board {
            seats: Vec::new(alloc),
        }
    }

    /// A board at which these boxes have the first seats, in their order. An error is want of memory; then they are dropped.
    pub fn of(alloc: Global, uis: Vec<U>) -> Result<Board<U>, AllocError>
        requires { length uis.items < 2 ^ 32 }
        ensures { IfOk result (λ board. board.seats.items ≡ map Some uis.items) }
    {
        let mut seats = Vec::new(alloc);
        for ui in uis {
            seats.push(Some(ui))?;
        }
        Ok(Board { seats })
    }

    /// Gives a box the free seat of the least number, and tells that number. An error is want of memory, as is want of
    /// a free number; then the board is as it was, and the box is dropped.
    pub fn seat(&mut self, _alloc: Global, ui: U) -> Result<u32, AllocError>
        ensures number { IfOk result (λ n. n ≡ free_seat self.old.seats.items) }
        ensures there { IfOk result (λ n. seat_at n self.new.seats.items ≡ Some ui) }
        ensures ok { OnOk result (self.new.seats.items ≡ seated ui self.old.seats.items) }
        ensures err { OnErr result (self.new.seats.items ≡ self.old.seats.items) }
    {
        let at = first_free(self.seats.as_slice());
        let Ok(n) = u32::try_from(at) else {
            return Err(AllocError);
        };
        put(&mut self.seats, at, ui)?;
        Ok(n)
    }

    /// Shows a drawing to the box at a seat that is taken. An error is want of memory; then that box was told nothing.
    /// All other seats have the very boxes that they had.
    pub fn tell(&mut self, alloc: Global, n: u32, drawing: &Drawing) -> Result<(), AllocError>
        requires { IsTaken n self.old.seats.items }
        ensures ok { OnOk result (box_at U.shown n self.new ≡ option_map (telling (Drawn drawing.now)) (box_at U.shown n self.old)) }
        ensures err { OnErr result (box_at U.shown n self.new ≡ box_at U.shown n self.old) }
        ensures taken { IsTaken n self.new.seats.items }
        ensures others { OthersStay n self.old.seats.items self.new.seats.items }
    {
        show_in(&mut self.seats[n as usize], alloc, drawing)
    }

    /// Tells the box at a seat that is taken why a line of its client is refused. An error is want of memory; then that
    /// box was told nothing. All other seats have the very boxes that they had.
    pub fn refuse(&mut self, alloc: Global, n: u32, refusal: Refusal) -> Result<(), AllocError>
        requires { IsTaken n self.old.seats.items }
        ensures ok { OnOk result (box_at U.shown n self.new ≡ option_map (telling (Refused refusal)) (box_at U.shown n self.old)) }
        ensures err { OnErr result (box_at U.shown n self.new ≡ box_at U.shown n self.old) }
        ensures taken { IsTaken n self.new.seats.items }
        ensures others { OthersStay n self.old.seats.items self.new.seats.items }
    {
        refuse_in(&mut self.seats[n as usize], alloc, refusal)
    }

    /// What the box at a seat that is taken reports. An error is want of memory.
    pub fn report(&self, alloc: Global, n: u32) -> Result<Vec<u8>, AllocError>
        requires { IsTaken n self.now.seats.items }
        ensures { IfOk result (λ bytes. bytes.items ≡ report_at (box_at U.shown n self.now)) }
    {
        report_in(&self.seats[n as usize], alloc)
    }

    /// Gives back the box at a seat that is taken, which is then free; takes no memory. All other seats have the very
    /// boxes that they had.
    pub fn unseat(&mut self, n: u32) -> U
        requires { IsTaken n self.old.seats.items }
        ensures gives { seat_at n self.old.seats.items ≡ Some result }
        ensures leaves { self.new.seats.items ≡ left_at n self.old.seats.items }
    {
        match self.seats[n as usize].take() {
            Some(ui) => ui,
            None => unreachable!(),
        }
    }
}

// The least number of a free seat, or how many seats there are where none is free.
fn first_free<U: Ui>(seats: &[Option<U>]) -> usize
    ensures { result ≡ free_seat seats.now }
{
    for (i, seat) in seats.iter().enumerate() {
        if seat.is_none() {
            return i;
        }
    }
    seats.len()
}

// Puts a box at the free seat of the least number.
fn put<U: Ui>(seats: &mut Vec<Option<U>>, at: usize, ui: U) -> Result<(), AllocError>
    requires { at ≡ free_seat seats.old.items }
    ensures ok { OnOk result (seats.new.items ≡ seated ui seats.old.items) }
    ensures err { OnErr result (seats.new.items ≡ seats.old.items) }
{
    if at < seats.len() {
        seats[at] = Some(ui);
        return Ok(());
    }
    seats.push(Some(ui))?;
    Ok(())
}

// Shows a drawing to the box at a seat.
fn show_in<U: Ui>(seat: &mut Option<U>, alloc: Global, drawing: &Drawing) -> Result<(), AllocError>
    ensures ok { OnOk result (option_map U.shown seat.new
        ≡ option_map (telling (Drawn drawing.now)) (option_map U.shown seat.old)) }
    ensures err { OnErr result (option_map U.shown seat.new ≡ option_map U.shown seat.old) }
    ensures taken { is_free seat.new ≡ is_free seat.old }
{
    match seat {
        Some(ui) => ui.show(alloc, drawing),
        None => Ok(()),
    }
}

// Tells the box at a seat of a refusal.
fn refuse_in<U: Ui>(seat: &mut Option<U>, alloc: Global, refusal: Refusal) -> Result<(), AllocError>
    ensures ok { OnOk result (option_map U.shown seat.new
        ≡ option_map (telling (Refused refusal)) (option_map U.shown seat.old)) }
    ensures err { OnErr result (option_map U.shown seat.new ≡ option_map U.shown seat.old) }
    ensures taken { is_free seat.new ≡ is_free seat.old }
{
    match seat {
        Some(ui) => ui.refuse(alloc, refusal),
        None => Ok(()),
    }
}

// What the box at a seat reports.
fn report_in<U: Ui>(seat: &Option<U>, alloc: Global) -> Result<Vec<u8>, AllocError>
    ensures { IfOk result (λ bytes. bytes.items ≡ report_at (option_map U.shown seat.now)) }
{
    match seat {
        Some(ui) => ui.report(alloc),
        None => Ok(Vec::new(alloc)),
    }
}
