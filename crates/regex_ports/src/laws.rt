//! Laws of matches and their groups, and worked examples of the definitions.

ghost use Rattle.regex_ports.specs.Examples.{GroupExamples};
ghost use Rattle.regex_ports.specs.Laws.{GroupLaws};

/// Laws of the groups of matches.
pub fn group_laws()
    ensures { GroupLaws }
{}

/// Worked examples of the groups of matches.
pub fn group_examples()
    ensures { GroupExamples }
{}
