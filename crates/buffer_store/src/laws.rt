//! The laws of the definitions and the worked examples: each is the contract of a function that does nothing.

ghost use Rattle.buffer_store.specs.Laws.{KeptChangesGoBothWays, BranchesTellTheStory, KeptTellsOn};
ghost use Rattle.buffer_store.specs.Examples.{Examples};

/// What takes kept changes back are the inverses of what they are by offsets, and leads to the text before them.
pub fn kept_changes_go_both_ways()
    ensures { KeptChangesGoBothWays }
{}

/// Of a tree only the changes from node to node are kept, and the text now: they tell the whole story.
pub fn branches_tell_the_story()
    ensures { BranchesTellTheStory }
{}

/// What is kept tells the story when a text is opened, and goes on to when a change is added, and when a group is committed,
/// taken back or made again.
pub fn kept_tells_on()
    ensures { KeptTellsOn }
{}

/// Worked examples of the definitions.
pub fn worked_examples()
    ensures { Examples }
{}
