//! Events of clients at an engine, one after another, and what each is to tell. End-to-end checks can't say these: a client of
//! theirs is hung up on when it is refused, leaves as soon as it may, and its session has room for all that it does.

use Act::{Draw, Join, Keys, Leave, Says, Sees, Struck};
use StepFault::{Full, HistoryFull, Joined, NoClient};
use Told::{Drew, MayLeave, Ran, Refused};
use session_events::StepFault;

// What a client does in a row.
#[derive(Clone, Copy)]
pub(crate) enum Act {
    // It comes.
    Join,
    // It strikes the keys of this text. All but the last one are to run, to draw nothing, and to grant no leave.
    Keys(&'static str),
    // It is drawn; whether it asked to be.
    Draw(bool),
    // It is drawn these lines, its cursor in this column, and this mode line.
    Sees(&'static str, u32, &'static str),
    // It is drawn this status.
    Says(&'static str),
    // It goes.
    Leave,
    // Nothing: so many entries of the history are a key of it.
    Struck(usize),
}

// What a row told.
#[derive(Clone, Copy, PartialEq, Eq, Debug)]
pub(crate) enum Told {
    // It ran; nothing was drawn.
    Ran,
    // It drew the client.
    Drew,
    // The client may leave by it.
    MayLeave,
    // It was refused, and for this reason.
    Refused(StepFault),
    // Something else was drawn or stood there, or one of some keys told more than that it ran.
    Unlike,
}

// Who, what it does, what that is to tell, and how many entries are to stand then.
pub(crate) type Row = (u32, Act, Told, u64);

// Rows at a new engine.
pub(crate) struct Script {
    pub(crate) name: &'static str,
    // how many entries the history may have
    pub(crate) limit: u64,
    // how many clients have come before, by numbers from 0
    pub(crate) clients: u32,
    pub(crate) rows: &'static [Row],
}

pub(crate) static SCRIPTS: [Script; 16] = [
    Script {
        name: "a client that never joined is refused",
        limit: 10,
        clients: 0,
        rows: &[
            (0, Keys("i"), Refused(NoClient(0)), 0),
            (7, Leave, Refused(NoClient(7)), 0),
            (0, Draw(true), Refused(NoClient(0)), 0),
            (0, Join, Ran, 1),
            (1, Keys("i"), Refused(NoClient(1)), 1),
        ],
    },
    Script {
        name: "a client joins once",
        limit: 10,
        clients: 0,
        rows: &[
            (0, Join, Ran, 1),
            (0, Join, Refused(Joined(0)), 1),
            (0, Leave, Ran, 2),
            (0, Leave, Refused(NoClient(0)), 2),
            (0, Join, Refused(Joined(0)), 2),
        ],
    },
    Script {
        name: "clients come and go beside one another",
        limit: 10,
        clients: 0,
        rows: &[
            (0, Join, Ran, 1),
            (1, Join, Ran, 2),
            (1, Keys("i"), Ran, 3),
            (0, Leave, Ran, 4),
            (0, Keys("i"), Refused(NoClient(0)), 4),
            (1, Keys("x"), Ran, 5),
            (0, Join, Refused(Joined(0)), 5),
            (2, Join, Ran, 6),
            (2, Draw(true), Drew, 7),
        ],
    },
    Script {
        name: "a full history takes no more than leaves",
        limit: 2,
        clients: 0,
        rows: &[
            (0, Join, Ran, 1),
            (1, Join, Ran, 2),
            (0, Keys("i"), Refused(HistoryFull), 2),
            (1, Draw(false), Refused(HistoryFull), 2),
            (2, Join, Refused(HistoryFull), 2),
            (0, Leave, Ran, 3),
            (1, Keys("i"), Refused(HistoryFull), 3),
            (1, Leave, Ran, 4),
        ],
    },
    Script {
        name: "the first reason is told, with room for one entry",
        limit: 1,
        clients: 0,
        rows: &[
            (0, Join, Ran, 1),
            (0, Join, Refused(Joined(0)), 1),
            (1, Keys("i"), Refused(NoClient(1)), 1),
            (1, Join, Refused(HistoryFull), 1),
        ],
    },
    Script {
        name: "the first reason is told, with room for none",
        limit: 0,
        clients: 0,
        rows: &[
            (0, Keys("i"), Refused(NoClient(0)), 0),
            (0, Join, Refused(HistoryFull), 0),
        ],
    },
    Script {
        name: "each key is an entry",
        limit: 100,
        clients: 0,
        rows: &[
            (3, Join, Ran, 1),
            (3, Keys("ihello<ret>there<esc>hjkl"), Ran, 18),
            (3, Struck(17), Ran, 18),
        ],
    },
    Script {
        name: "quitting is granted once",
        limit: 100,
        clients: 0,
        rows: &[
            (0, Join, Ran, 1),
            (0, Keys(":"), Ran, 2),
            (0, Keys("q"), Ran, 3),
            (0, Keys("<ret>"), MayLeave, 4),
            (0, Keys("i"), Ran, 5),
            (0, Keys("x"), Ran, 6),
            (0, Keys("<esc>"), Ran, 7),
            (0, Keys(":"), Ran, 8),
            (0, Keys("q"), Ran, 9),
            (0, Keys("<ret>"), Ran, 10),
            (0, Draw(true), Drew, 11),
            (0, Leave, Ran, 12),
            (0, Keys("i"), Refused(NoClient(0)), 12),
        ],
    },
    Script {
        name: "other commands and typed text grant no leave",
        limit: 100,
        clients: 0,
        rows: &[
            (0, Join, Ran, 1),
            (
                0,
                Keys(":nope<ret>:<ret>:q<esc>i:q<ret><esc>:q<ret>"),
                MayLeave,
                20,
            ),
        ],
    },
    Script {
        name: "what one types moves the other",
        limit: 1_000,
        clients: 2,
        rows: &[
            (0, Keys("iab<esc>gg"), Ran, 8),
            (1, Keys("ggl"), Ran, 11),
            (0, Keys("i"), Ran, 12),
            (1, Keys("i"), Ran, 13),
            (0, Keys("x"), Ran, 14),
            (1, Keys("y"), Ran, 15),
            (0, Keys("z"), Ran, 16),
            (
                0,
                Sees("xzayb\n", 2, "*scratch* 1:3 insert 1/1 - client0"),
                Drew,
                17,
            ),
            (
                1,
                Sees("xzayb\n", 4, "*scratch* 1:5 insert 1/1 - client1"),
                Drew,
                18,
            ),
        ],
    },
    Script {
        name: "history ends at the first text and at the last",
        limit: 1_000,
        clients: 1,
        rows: &[
            (0, Keys("u"), Ran, 2),
            (0, Says("nothing to undo"), Drew, 3),
            (0, Keys("U"), Ran, 4),
            (0, Says("nothing to redo"), Drew, 5),
            (0, Keys("<c-k>"), Ran, 6),
            (0, Says("no such undo node"), Drew, 7),
            (0, Keys("<c-j>"), Ran, 8),
            (0, Says("no such undo node"), Drew, 9),
            (0, Keys("ia<esc>u"), Ran, 13),
            (0, Says(""), Drew, 14),
            (0, Keys("u"), Ran, 15),
            (0, Says("nothing to undo"), Drew, 16),
            (0, Keys("U"), Ran, 17),
            (0, Says(""), Drew, 18),
            (0, Keys("2u"), Ran, 20),
            (0, Says("nothing to undo"), Drew, 21),
        ],
    },
    Script {
        name: "a node is gone to over the ancestor",
        limit: 1_000,
        clients: 1,
        rows: &[
            (0, Keys("ia<esc>uib<esc><c-k>"), Ran, 9),
            (
                0,
                Sees("a\n", 0, "*scratch* 1:1 normal 1/2 - client0"),
                Drew,
                10,
            ),
            (0, Keys("<c-k>"), Ran, 11),
            (
                0,
                Sees("\n", 0, "*scratch* 1:1 normal 1/1 - client0"),
                Drew,
                12,
            ),
        ],
    },
    // at the end the other one takes back what it typed itself, and the first one's text before
    Script {
        name: "one takes back what both typed",
        limit: 1_000,
        clients: 2,
        rows: &[
            (0, Keys("iab<esc>gg"), Ran, 8),
            (1, Keys("ggl"), Ran, 11),
            (0, Keys("i"), Ran, 12),
            (1, Keys("i"), Ran, 13),
            (0, Keys("x"), Ran, 14),
            (1, Keys("y"), Ran, 15),
            (0, Keys("z<esc>"), Ran, 17),
            (1, Keys("<esc>"), Ran, 18),
            (0, Keys("u"), Ran, 19),
            (
                0,
                Sees("xayb\n", 1, "*scratch* 1:2 normal 1/1 - client0"),
                Drew,
                20,
            ),
            (
                1,
                Sees("xayb\n", 3, "*scratch* 1:4 normal 1/1 - client1"),
                Drew,
                21,
            ),
            (1, Keys("2u"), Ran, 23),
            (
                0,
                Sees("ab\n", 0, "*scratch* 1:1 normal 1/1 - client0"),
                Drew,
                24,
            ),
            (
                1,
                Sees("ab\n", 0, "*scratch* 1:1 normal 1/1 - client1"),
                Drew,
                25,
            ),
        ],
    },
    Script {
        name: "who leaves leaves the others where they are",
        limit: 1_000,
        clients: 3,
        rows: &[
            (0, Keys("iabc<esc>gg"), Ran, 10),
            (1, Keys("ggl"), Ran, 13),
            (2, Keys("ggll"), Ran, 17),
            (1, Keys("i"), Ran, 18),
            (1, Leave, Ran, 19),
            (0, Keys("ix"), Ran, 21),
            (
                0,
                Sees("xabc\n", 1, "*scratch* 1:2 insert 1/1 - client0"),
                Drew,
                22,
            ),
            (
                2,
                Sees("xabc\n", 3, "*scratch* 1:4 normal 1/1 - client2"),
                Drew,
                23,
            ),
        ],
    },
    Script {
        name: "a freed name is taken again",
        limit: 1_000,
        clients: 10,
        rows: &[
            (7, Leave, Ran, 11),
            (20, Join, Ran, 12),
            (21, Join, Ran, 13),
            (
                20,
                Sees("\n", 0, "*scratch* 1:1 normal 1/1 - client7"),
                Drew,
                14,
            ),
            (
                21,
                Sees("\n", 0, "*scratch* 1:1 normal 1/1 - client10"),
                Drew,
                15,
            ),
        ],
    },
    Script {
        name: "a full session takes no more clients",
        limit: 1_000,
        clients: 64,
        rows: &[
            (64, Join, Refused(Full), 64),
            (64, Keys("i"), Refused(NoClient(64)), 64),
            (63, Keys("i"), Ran, 65),
            (5, Leave, Ran, 66),
            (64, Join, Ran, 67),
            (65, Join, Refused(Full), 67),
        ],
    },
];
