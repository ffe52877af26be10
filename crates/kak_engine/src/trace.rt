//! All that an outside was asked for so far, which contracts alone see.
#![tactic(auto)]

ghost use Rattle.std.specs.Prelude.{◌≡◌, List, []};
ghost use Rattle.std.specs.Borrow.{ftrue};
ghost use Rattle.kak_engine.specs.Asking.{Asked};

use kak_files::FileRead;
use kak_ports::Put;
use std::fmt;
use std::marker::Model;

/// All that an outside was asked for so far, with what it answered, in order. It takes no memory, and its methods do nothing
/// when they are run.
#[derive(Drop)]
pub struct Trace {
    pub ghost asked: { List Asked },
}

impl Model for Trace {
    ghost also_owns = { λ _. ftrue };
}

// It owns nothing.
unsafe impl Send for Trace {}

impl fmt::Debug for Trace {
    fn fmt<W: fmt::Write>(&self, f: &mut fmt::Formatter<W>) -> fmt::Result {
        f.write_str("Trace")
    }
}

/// One thing that was asked for, with what was answered.
#[derive(Clone, Copy, Drop)]
pub enum Note<'a> {
    /// The pattern of a text, and whether it was built.
    OfPattern(&'a str, bool),
    /// A file that was read.
    OfRead(&'a str, &'a FileRead),
    /// A file that was written, and the bytes.
    OfWrite(&'a str, &'a [u8], Put),
}

impl Trace {
    ghost use Rattle.kak_engine.specs.Noting.{noted};

    /// Nothing was asked for yet.
    pub fn new() -> Trace
        ensures { result.asked ≡ [] }
    {
        Trace {}
    }

    /// This was asked for behind all else.
    #[inline(always)]
    pub fn then(&self, _note: &Note<'_>) -> Trace
        ensures { result.asked ≡ noted self.now.asked _note.now }
    {
        Trace {}
    }
}
