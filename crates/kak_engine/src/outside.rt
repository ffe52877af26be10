//! Whom the steps of an engine ask: for patterns, and for files to be read and written.
#![tactic(auto)]

ghost use Rattle.std.specs.Prelude.{◌≡◌, IfOk, OnErr};
ghost use Rattle.regex_ports.specs.Making.{IfBuilt};
ghost use Rattle.kak_engine.specs.Honesty.{Outside as Seen, MakesPattern, ReadsFile, WritesFile};

use kak_files::FileRead;
use kak_ports::Put;
use regex_ports::{Made, Pattern};
use std::alloc::{AllocError, Global};

/// Whom the steps of an engine ask. Contracts see what its files are seen as, how often its maker of patterns has refused, and
/// all that it was asked for so far. Code that is handed an outside of any type can do nothing to it but ask, and each ask
/// stands in that list for good: so what a contract says of the list is all that was asked for.
pub trait Outside {
    /// The patterns that it makes.
    type P: Pattern;

    ghost seen: { Self → Seen };

    /// Has the pattern of a text made. A pattern that was built is that of this text. An `Err` leaves all as it was.
    fn make(&mut self, alloc: Global, pattern: &str) -> Result<Made<Self::P>, AllocError>
        ensures built { IfOk result (λ made. IfBuilt made (λ p. Self.P.source p ≡ pattern.now)) }
        ensures honest { IfOk result (λ made. MakesPattern made pattern.now (seen self.old) (seen self.new)) }
        ensures err { OnErr result (seen self.new ≡ seen self.old) };

    /// Has a file read. An `Err` leaves all as it was.
    fn read(&mut self, alloc: Global, name: &str) -> Result<FileRead, AllocError>
        ensures honest { IfOk result (λ read. ReadsFile read name.now (seen self.old) (seen self.new)) }
        ensures err { OnErr result (seen self.new ≡ seen self.old) };

    /// Has a file written.
    fn write(&mut self, name: &str, bytes: &[u8]) -> Put
        ensures honest { WritesFile result name.now bytes.now (seen self.old) (seen self.new) };
}
