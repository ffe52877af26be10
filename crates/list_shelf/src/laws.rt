//! The laws, and the worked examples of the definitions.

ghost use Rattle.list_shelf.specs.Examples.{Examples};
ghost use Rattle.list_shelf.specs.Laws.{CatchingLaws, FollowingLaws, PastTheLimit, StandingLaws, StoringLaws};

/// A list that catches up is the list that the eager rule gives, whether it is settled at each change or once at the end,
/// and in however many parts it goes.
pub fn lists_may_wait()
    ensures { CatchingLaws }
{}

/// Noting the shifts of changes moves each list on a shelf as the eager rule does, also where the log begins again.
pub fn lists_follow()
    ensures { FollowingLaws }
{}

/// When as many letters are typed as a log holds, and one more, the log holds that one alone, and lists that are brought up
/// to date are the eager ones.
pub fn logs_begin_again()
    ensures { PastTheLimit }
{}

/// What is done with a shelf and not with its text leaves what each list is, but for the list that is meant.
pub fn lists_stay()
    ensures { StandingLaws }
{}

/// Which lists and stamps stay where they stand.
pub fn lists_stand()
    ensures { StoringLaws }
{}

/// Worked examples of the definitions.
pub fn worked_examples()
    ensures { Examples }
{}
