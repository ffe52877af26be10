//! What patterns and prompts are for.

use byte_texts::Utf8Text;
use directions::Direction;
use highlight_paint::GroupFace;
use kak_text::Chars;
use scope_options::Scope;
use scope_tables::HookName;
use sequences::Seq;

/// What is done with the matches of a pattern.
#[derive(Clone, Copy, PartialEq, Eq, Debug)]
pub enum Use {
    /// What matches in the selections is selected.
    Select,
    /// What matches leave of the selections is selected.
    Split,
    /// The selections that have a match stay.
    Keep,
    /// The selections that have none stay.
    Drop,
    /// Each selection becomes the next match, round the end of the text, or, backward, the former one, round its start.
    Search(Direction),
    /// Each selection reaches to that match.
    Reach(Direction),
    /// The main selection becomes that match, and that so many more times.
    Step(Direction, u32),
    /// That match is added as the new main selection, and that so many more times.
    Add(Direction, u32),
}

/// A highlighter that waits for its pattern.
#[derive(Drop, Debug)]
pub struct NewHighlighter {
    pub scope: Scope,
    /// Its path, without the word of the scope.
    pub path: Utf8Text,
    /// The groups of the pattern that have a face.
    pub groups: Seq<GroupFace>,
    /// Whether one of its path may be replaced.
    pub replace: bool,
}

/// A hook that waits for its pattern.
#[derive(Drop, Debug)]
pub struct NewHook {
    pub scope: Scope,
    pub name: HookName,
    /// The group by which it may be removed; empty where it was given none.
    pub group: Utf8Text,
    /// Whether it is removed before it is run.
    pub once: bool,
    /// What it runs.
    pub commands: Utf8Text,
}

/// What a pattern is made for.
#[derive(Drop, Debug)]
pub enum Wanted {
    /// A use is made of its matches.
    Selects(Use),
    /// A highlighter is added.
    Paints(NewHighlighter),
    /// A hook is added.
    Hooks(NewHook),
}

/// A pattern that is to be made of a text, and what it is made for.
#[derive(Drop, Debug)]
pub struct PatternUse {
    pub pattern: Chars,
    pub then: Wanted,
}

/// What the line of a prompt is taken as when it is accepted.
#[derive(Clone, Copy, PartialEq, Eq, Debug)]
pub enum Purpose {
    /// Commands, which are run.
    Commands,
    /// A pattern, of which a use is made.
    Pattern(Use),
}
