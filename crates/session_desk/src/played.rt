//! What a desk holds.
ghost use Rattle.std.specs.Prelude.{◌≡◌, ℕ, ◌<◌, ◌^◌, length, List, Option, Result, None, OnOk, OnErr};
ghost use Rattle.session_desk.specs.Histories.{AddsOne, MaySetMark};

use std::alloc::Global;

/// An object that stands for the list of the entries that were played on it. Each entry has its maker's number.
///
/// A mark is None or a number. Once it is set it stays, and each move is then refused.
pub trait Played: Drop {
    /// What a pass plays.
    type Move;

    /// What a move that was played answers.
    type Reply;

    /// What a move that was refused answers.
    type Fault;

    /// What a look at the object shows.
    type Glimpse;

    /// One entry of the history. No value of it is made.
    type Entry;

    /// What no call changes. No value of it is made.
    type Frame;

    ghost entries: { Self → List Self.Entry };

    ghost maker: { Self.Entry → ℕ };

    ghost marked: { Self → Option ℕ };

    ghost frame: { Self → Self.Frame };

    // Of the frame, the entries and the mark before, who plays which move, the answer, and the entries and the mark after.
    ghost answers: { Self.Frame → List Self.Entry → Option ℕ → ℕ → Self.Move → Result Self.Reply Self.Fault → List Self.Entry → Option ℕ → Type 0 };

    // Of the frame, the entries, the mark, who looks, and what is shown.
    ghost shows: { Self.Frame → List Self.Entry → Option ℕ → ℕ → Self.Glimpse → Type 0 };

    /// Plays a move as `who`. At Ok one entry of `who` was added; at Err none, and a mark that was None may be set to the number of entries.
    fn play(&mut self, alloc: Global, who: u32, mv: &Self::Move) -> Result<Self::Reply, Self::Fault>
        ensures frame { frame self.new ≡ frame self.old }
        ensures answer { answers (frame self.old) (entries self.old) (marked self.old) who mv.now result (entries self.new) (marked self.new) }
        ensures ok { OnOk result (AddsOne maker who (entries self.old) (entries self.new)) }
        ensures unmarked { OnOk result ((marked self.old ≡ None) × (marked self.new ≡ None)) }
        ensures err { OnErr result (entries self.new ≡ entries self.old) }
        ensures mark { OnErr result (MaySetMark (entries self.old) (marked self.old) (marked self.new)) };

    /// The number of entries, which is below 2^63.
    fn count(&self) -> u64
        ensures exact { result ≡ length (entries self.now) }
        ensures small { result < 2 ^ 63 };

    /// The mark.
    fn mark(&self) -> Option<u64>
        ensures { result ≡ marked self.now };

    /// What `who` sees of the object.
    fn glimpse(&self, who: u32) -> Self::Glimpse
        ensures { shows (frame self.now) (entries self.now) (marked self.now) who result };
}
