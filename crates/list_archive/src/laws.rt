//! The laws, and the worked examples of the definitions.

ghost use Rattle.list_archive.specs.Examples.{Examples};
ghost use Rattle.list_archive.specs.Laws.{FollowingLaws, SavingLaws, LimitLaws, OthersLaws, ShelfLaws, SteppingLaws};

/// What is kept goes through each change of its text as the eager rule has it, also where the log begins again.
pub fn kept_lists_follow()
    ensures { FollowingLaws }
{}

/// A list that is saved without a copy stays what it was, and at a key's end what is kept is what the definitions say.
pub fn saved_lists_stay()
    ensures { SavingLaws }
{}

/// Of the lists that a client can take back, the newest are kept.
pub fn newest_lists_stay()
    ensures { LimitLaws }
{}

/// What a client takes back and redoes, and the marks of registers, are the lists that are seen.
pub fn lists_come_back()
    ensures { SteppingLaws }
{}

/// What is done with the shelf beside it leaves what is kept, also where the log is trimmed.
pub fn shelves_leave_what_is_kept()
    ensures { ShelfLaws }
{}

/// What is kept for others is left as it is stored, and so are the marks of other registers.
pub fn others_stay()
    ensures { OthersLaws }
{}

/// Worked examples of the definitions.
pub fn worked_examples()
    ensures { Examples }
{}
