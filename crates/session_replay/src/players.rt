//! The clients of a replay, by their numbers.

ghost use Rattle.std.specs.Prelude.{◌≡◌, ◌<◌, ◌^◌, [], length, map, Some, true, false, is_none, IfOk, IfErr, OnOk, OnErr};
ghost use Rattle.session_events.specs.Seats.{IsLegalSeat, IsIn, turned_to};
ghost use Rattle.session_replay.specs.Settings.{setting};
ghost use Rattle.session_replay.specs.declared.places.ClientPlace.TheVariants as place;
ghost use Rattle.session_replay.specs.Clients.{LeavesAlone};
ghost use Rattle.session_replay.specs.Players.{places, reports, count_of, held, moment_of, ArePlayersStill, IsHeldStill, ConcernsOnly, let_off, LosesLeaver};
ghost use Rattle.session_replay.specs.Players.{HasNotCome, IsReceived, TakesNext, TakesFirst, TakesOrPasses, IsSomewhere, PlaysWritten};
ghost use Rattle.session_replay.specs.Players.{SomeIsAt, NoneIsAt, AreSomewhere, BeginAway};

use crate::places::ClientPlace;
use crate::playing::{join, let_go, open_for, play};
use crate::written::{Written, read_written};
use requests::Reader;
use session_events::Seats;
use session_lines::Stop;
use std::alloc::{AllocError, Global};
use ui_board::{Board, Ui};

/// What became of a written line.
#[derive(Clone, Copy, PartialEq, Eq, Debug)]
pub enum Taken {
    /// It was blank, or its client is where it was before, or has come.
    Stayed,
    /// Its client left by it.
    Left,
    /// It is no client's, and was not played.
    Bad,
}

/// One client of a replay.
#[derive(Drop)]
pub struct ReplayClient {
    /// Where it is.
    pub place: ClientPlace,
    /// The report of its box, once it has gone.
    pub report: Vec<u8>,
}

/// The clients of a replay: their seats at the session, their boxes, where each is, and the reports of the boxes of those
/// that have gone.
#[derive(Drop)]
pub struct Players<S: Seats, U> {
    pub(crate) seats: S,
    pub(crate) board: Board<U>,
    pub(crate) clients: Vec<ReplayClient>,
}

/// Memory was wanting for the clients of a replay; their seats are given back.
#[derive(Drop)]
pub struct NoPlayers<S: Seats> {
    /// The seats.
    pub seats: S,
}

// Seats boxes at a new board, in order: no client has come.
fn seat_all<U: Ui>(alloc: Global, uis: Vec<U>) -> Result<(Board<U>, Vec<ReplayClient>), AllocError>
    requires { length uis.items < 2 ^ 32 }
    ensures boxes { IfOk result (λ made. made.0.seats.items ≡ map Some uis.items) }
    ensures away { IfOk result (λ made. places made.1.items ≡ map (λ ui. place.Away) uis.items) }
    ensures unreported { IfOk result (λ made. reports made.1.items ≡ map (λ ui. []) uis.items) }
{
    let mut clients = Vec::new(alloc);
    for _ui in &uis {
        clients.push(ReplayClient {
            place: ClientPlace::Away,
            report: Vec::new(alloc),
        })?;
    }
    let board = Board::of(alloc, uis)?;
    Ok((board, clients))
}

impl<S: Seats, U: Ui> Players<S, U> {
    /// How many clients there are.
    pub fn count(&self) -> u32
        requires { count_of self.now < 2 ^ 32 }
        ensures { result ≡ count_of self.now }
    {
        self.clients.len() as u32
    }

    // Where a client is.
    pub(crate) fn place_of(&self, who: u32) -> ClientPlace
        requires { who < count_of self.now }
        ensures { result ≡ (held U.shown self.now who).place }
    {
        self.clients[who as usize].place
    }

    // Lets a client go that is here, and keeps the report of its box. After an error nothing else is held than before.
    pub(crate) fn dismiss<Q: Reader>(&mut self, alloc: Global, who: u32) -> Result<(), Stop>
        requires legal { IsLegalSeat (S.seated self.old.seats) }
        requires inside { who < count_of self.old }
        requires here { IsIn (turned_to who (S.seated self.old.seats)) }
        requires boxed { is_none (held U.shown self.old who).box ≡ false }
        ensures still { ArePlayersStill S.seated S.kept result self.old self.new }
        ensures alone { ConcernsOnly (setting S.gives Q.reads) who (moment_of S.seated U.shown self.old) (moment_of S.seated U.shown self.new) }
        ensures leaves { OnOk result (LeavesAlone who (S.seated self.old.seats).seen (S.seated self.new.seats).seen) }
        ensures lost { IfErr result (LosesLeaver (setting S.gives Q.reads) who (S.seated self.old.seats).seen (S.seated self.new.seats).seen) }
        ensures off { OnOk result (held U.shown self.new who ≡ let_off (held U.shown self.old who).box) }
        ensures stays { OnErr result (IsHeldStill (held U.shown self.old) (held U.shown self.new)) }
    {
        let report = let_go::<Q, S, U>(alloc, &mut self.seats, &self.board, who)?;
        self.clients[who as usize] = ReplayClient {
            place: ClientPlace::Gone,
            report,
        };
        Ok(())
    }

    // Lets a client come, and opens its connection. Tells whether it may leave.
    fn receive<Q: Reader>(&mut self, alloc: Global, who: u32) -> Result<bool, Stop>
        requires legal { IsLegalSeat (S.seated self.old.seats) }
        requires inside { who < count_of self.old }
        requires comes { HasNotCome (setting S.gives Q.reads) who (moment_of S.seated U.shown self.old) }
        ensures still { ArePlayersStill S.seated S.kept result self.old self.new }
        ensures alone { ConcernsOnly (setting S.gives Q.reads) who (moment_of S.seated U.shown self.old) (moment_of S.seated U.shown self.new) }
        ensures comes { IsReceived (setting S.gives Q.reads) who result (moment_of S.seated U.shown self.old) (moment_of S.seated U.shown self.new) }
    {
        let leaving = join::<Q, S>(alloc, &mut self.seats, who)?;
        self.clients[who as usize].place = ClientPlace::Here;
        open_for::<Q, S, U>(alloc, &mut self.seats, &mut self.board, who, leaving)
    }

    // Plays a line of a client that is here, and lets it go if it may leave. Tells whether it left.
    fn take_next<Q: Reader>(&mut self, alloc: Global, who: u32, line: &[u8]) -> Result<bool, Stop>
        requires legal { IsLegalSeat (S.seated self.old.seats) }
        requires inside { who < count_of self.old }
        requires here { IsIn (turned_to who (S.seated self.old.seats)) }
        requires at { (held U.shown self.old who).place ≡ place.Here }
        requires boxed { is_none (held U.shown self.old who).box ≡ false }
        ensures still { ArePlayersStill S.seated S.kept result self.old self.new }
        ensures alone { ConcernsOnly (setting S.gives Q.reads) who (moment_of S.seated U.shown self.old) (moment_of S.seated U.shown self.new) }
        ensures takes { TakesNext (setting S.gives Q.reads) who line.now result (moment_of S.seated U.shown self.old) (moment_of S.seated U.shown self.new) }
    {
        if play::<Q, S, U>(alloc, &mut self.seats, &mut self.board, who, line)? {
            self.dismiss::<Q>(alloc, who)?;
            return Ok(true);
        }
        Ok(false)
    }

    // Plays the first line of a client, which comes with it, and lets it go if it may leave. Tells whether it left.
    fn take_first<Q: Reader>(&mut self, alloc: Global, who: u32, line: &[u8]) -> Result<bool, Stop>
        requires legal { IsLegalSeat (S.seated self.old.seats) }
        requires inside { who < count_of self.old }
        requires comes { HasNotCome (setting S.gives Q.reads) who (moment_of S.seated U.shown self.old) }
        requires unreported { (held U.shown self.old who).report ≡ [] }
        ensures still { ArePlayersStill S.seated S.kept result self.old self.new }
        ensures alone { ConcernsOnly (setting S.gives Q.reads) who (moment_of S.seated U.shown self.old) (moment_of S.seated U.shown self.new) }
        ensures takes { TakesFirst (setting S.gives Q.reads) who line.now result (moment_of S.seated U.shown self.old) (moment_of S.seated U.shown self.new) }
    {
        if self.receive::<Q>(alloc, who)? {
            self.dismiss::<Q>(alloc, who)?;
            return Ok(true);
        }
        self.take_next::<Q>(alloc, who, line)
    }

    // Plays a line of a client, which comes with its first one; lines behind its leaving are passed over. Tells whether the
    // client left by it.
    fn take_line<Q: Reader>(&mut self, alloc: Global, who: u32, line: &[u8]) -> Result<bool, Stop>
        requires legal { IsLegalSeat (S.seated self.old.seats) }
        requires inside { who < count_of self.old }
        requires client { IsSomewhere (setting S.gives Q.reads) who (moment_of S.seated U.shown self.old) }
        ensures still { ArePlayersStill S.seated S.kept result self.old self.new }
        ensures alone { ConcernsOnly (setting S.gives Q.reads) who (moment_of S.seated U.shown self.old) (moment_of S.seated U.shown self.new) }
        ensures takes { TakesOrPasses (setting S.gives Q.reads) who line.now result (moment_of S.seated U.shown self.old) (moment_of S.seated U.shown self.new) }
    {
        match self.place_of(who) {
            ClientPlace::Gone => Ok(false),
            ClientPlace::Away => self.take_first::<Q>(alloc, who, line),
            ClientPlace::Here => self.take_next::<Q>(alloc, who, line),
        }
    }

    /// Plays a written line, if it is a client's. Tells what it was, and whether its client left by it.
    pub fn take_written<Q: Reader>(&mut self, alloc: Global, line: &[u8]) -> Result<Taken, Stop>
        requires few { count_of self.old < 2 ^ 32 }
        requires legal { IsLegalSeat (S.seated self.old.seats) }
        requires sound { AreSomewhere (setting S.gives Q.reads) (count_of self.old) (moment_of S.seated U.shown self.old) }
        ensures still { ArePlayersStill S.seated S.kept result self.old self.new }
        ensures takes { PlaysWritten (setting S.gives Q.reads) S.seated U.shown line.now result self.old self.new }
    {
        match read_written(self.count(), line) {
            Written::Blank => Ok(Taken::Stayed),
            Written::Bad => Ok(Taken::Bad),
            Written::Of(who, from) => {
                if self.take_line::<Q>(alloc, who, &line[from..])? {
                    return Ok(Taken::Left);
                }
                Ok(Taken::Stayed)
            }
        }
    }

    /// Whether a client is here.
    pub fn is_anybody_here(&self) -> bool
        requires { count_of self.now < 2 ^ 32 }
        ensures yes { result ≡ true → SomeIsAt place.Here (count_of self.now) (held U.shown self.now) }
        ensures no { result ≡ false → NoneIsAt place.Here (count_of self.now) (held U.shown self.now) }
    {
        for who in 0..self.count() {
            if self.place_of(who) == ClientPlace::Here {
                return true;
            }
        }
        false
    }

    /// Clients for these boxes, none of which has come. Where the boxes were told nothing, and the session has no entry, that
    /// is so by the history too. After an error, which is want of memory, the seats are given back.
    pub fn new<Q: Reader>(
        alloc: Global,
        seats: S,
        uis: Vec<U>,
    ) -> Result<Players<S, U>, NoPlayers<S>>
        requires { length uis.items < 2 ^ 32 }
        ensures seats { IfOk result (λ players. players.seats ≡ seats) }
        ensures back { IfErr result (λ none. none.seats ≡ seats) }
        ensures count { IfOk result (λ players. count_of players ≡ length uis.items) }
        ensures begins { IfOk result (BeginAway (setting S.gives Q.reads) S.seated U.shown seats uis.items) }
    {
        match seat_all(alloc, uis) {
            Ok((board, clients)) => Ok(Players {
                seats,
                board,
                clients,
            }),
            Err(_) => Err(NoPlayers { seats }),
        }
    }
}
