//! The clients that are there.

ghost use Rattle.std.specs.Prelude.{◌≡◌, ◌==◌, ◌||◌, ◌<◌, true, not, length, map, filter, OnOk, OnErr, slice_index_or, ◌++◌, ◌∷◌, []};
ghost use Rattle.std.specs.List.{list_any, list_all};
ghost use Rattle.std.specs.Borrow.{sem};
ghost use Rattle.tables.specs.Tables.{place_where, first_where};
ghost use Rattle.kak_world.specs.Flat.{is_of, is_here, least_free, numbers_of, newcomer};
ghost use Rattle.tables.specs.Tables.{changed_where};
ghost use Rattle.kak_world.specs.Showing.{seeing_buffer};
ghost use Rattle.kak_world.specs.Dropping.{moved_on};

use crate::own::{Mode, Own, StatusText};
use crate::purpose::Purpose;
use edit_line::EditLine;
use std::alloc::{AllocError, Global};
use std::marker::Model;
use window_view::Size;

/// A client: its number in the history, the number in its name, that of the buffer that it sees, and what is its own.
#[derive(Drop, Debug)]
pub struct Client {
    pub who: u32,
    pub number: u32,
    pub shown: u32,
    pub own: Own,
}

/// The clients that are there, in the order in which they came.
#[derive(Drop, Debug)]
pub(crate) struct Clients {
    rows: Vec<Client>,
}

impl Model for Clients {
    ghost use Rattle.std.specs.Prelude.{List};
    ghost use Rattle.kak_world.specs.declared.clients.Client.{Client as ClientSeen};

    ghost Value = { List ClientSeen };

    ghost view = { λ a. a.rows.items };
}

// The place of a client, or how many there are where it isn't there.
fn place(rows: &[Client], who: u32) -> usize
    ensures { result ≡ place_where (is_of who) rows.now }
{
    for (i, client) in rows.iter().enumerate() {
        if client.who == who {
            return i;
        }
    }
    rows.len()
}

// Whether a number is in a client's name.
fn is_taken(rows: &[Client], number: u32) -> bool
    ensures { result ≡ list_any (λ c. c.number == number) rows.now }
{
    rows.iter().any(|client| client.number == number)
}

// The least number that is in no client's name.
fn free_number(rows: &[Client]) -> u32
    requires { length rows.now < 64 }
    ensures { result ≡ least_free (numbers_of rows.now) }
{
    let count = rows.len() as u32;
    for number in 0..count {
        if !is_taken(rows, number) {
            return number;
        }
    }
    count
}

// Lets a client that sees the buffer of a number see another one.
fn move_on(client: &mut Client, n: u32, to: u32)
    ensures { client.new ≡ moved_on n to client.old }
{
    if client.shown == n {
        client.shown = to;
    }
}

// Lets each client that sees the buffer of a number see another one.
fn move_each_on(rows: &mut Vec<Client>, n: u32, to: u32)
    ensures { rows.new.items ≡ map (moved_on n to) rows.old.items }
{
    for i in 0..rows.len() {
        move_on(&mut rows[i], n, to);
    }
}

impl Clients {
    ghost use Rattle.kak_world.specs.Lending.{LendsClient, LendsOwnIn};

    /// No clients.
    pub(crate) fn new(alloc: Global) -> Clients
        ensures { result ≡ [] }
    {
        Clients {
            rows: Vec::new(alloc),
        }
    }

    /// How many there are.
    pub(crate) fn len(&self) -> usize
        ensures { result ≡ length self.now }
    {
        self.rows.len()
    }

    /// All of them.
    pub(crate) fn as_slice(&self) -> &[Client]
        ensures { result.now ≡ self.now }
    {
        self.rows.as_slice()
    }

    /// Whether a client is there.
    pub(crate) fn is_here(&self, who: u32) -> bool
        ensures { result ≡ is_here who self.now }
    {
        place(self.rows.as_slice(), who) < self.rows.len()
    }

    /// A client that is there.
    pub(crate) fn client(&self, who: u32) -> &Client
        requires { is_here who self.now ≡ true }
        ensures { result.now ≡ first_where (is_of who) (newcomer who 0 0) self.now }
    {
        &self.rows[place(self.rows.as_slice(), who)]
    }

    // The client at a place.
    fn at_mut(&mut self, i: usize) -> &mut Client
        requires { i < length self.old }
        ensures* writes_back { sem 𝓛 (LendsClient self.entry i result) }
        ensures value { result.now ≡ slice_index_or self.old i result.now }
    {
        &mut self.rows[i]
    }

    /// What is the own of a client that is there, to be changed.
    pub(crate) fn own_mut(&mut self, who: u32) -> &mut Own
        requires { is_here who self.old ≡ true }
        ensures* writes_back { sem 𝓛 (LendsOwnIn self.entry who result) }
        ensures value { result.now ≡ (first_where (is_of who) (newcomer who 0 0) self.old).own }
    {
        let i = place(self.rows.as_slice(), who);
        let client = self.at_mut(i);
        &mut client.own
    }

    /// A client comes, and is named by the least number that no other has. An `Err` leaves them.
    pub(crate) fn add(&mut self, alloc: Global, who: u32, shown: u32) -> Result<(), AllocError>
        requires { length self.old < 64 }
        ensures ok { OnOk result (self.new ≡ self.old ++ newcomer who (least_free (numbers_of self.old)) shown ∷ []) }
        ensures err { OnErr result (self.new ≡ self.old) }
    {
        let client = Client {
            who,
            number: free_number(self.rows.as_slice()),
            shown,
            own: Own {
                mode: Mode::Normal,
                count: 0,
                register: None,
                pending: None,
                status: StatusText::Quiet,
                appending: false,
                purpose: Purpose::Commands,
                prompt: EditLine::new(alloc),
                recording: None,
                leaving: false,
                drawn: false,
                dragging: false,
                size: Size::first(),
                info: None,
                sent: None,
            },
        };
        self.rows.push(client)?;
        Ok(())
    }

    /// Lets a client that is there see the buffer of another number.
    pub(crate) fn set_shown(&mut self, who: u32, shown: u32)
        requires { is_here who self.old ≡ true }
        ensures { self.new ≡ changed_where (is_of who) (seeing_buffer shown) self.old }
    {
        let at = place(self.rows.as_slice(), who);
        let client = &mut self.rows[at];
        client.shown = shown;
    }

    /// Lets each client that sees the buffer of a number see another one.
    pub(crate) fn move_on(&mut self, n: u32, to: u32)
        ensures { self.new ≡ map (moved_on n to) self.old }
    {
        move_each_on(&mut self.rows, n, to);
    }

    /// Whether each one but a client was granted to leave.
    pub(crate) fn others_leave(&self, who: u32) -> bool
        ensures { result ≡ list_all (λ c. is_of who c || c.own.leaving) self.now }
    {
        self.rows
            .iter()
            .all(|client| client.who == who || client.own.leaving)
    }

    /// A client goes.
    pub(crate) fn remove(&mut self, who: u32)
        ensures { self.new ≡ filter (λ c. not (is_of who c)) self.old }
    {
        self.rows.retain(|client| client.who != who);
    }
}
