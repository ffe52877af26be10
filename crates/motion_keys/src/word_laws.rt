//! Worked examples of the motions by words, and their laws.

ghost use Rattle.motion_keys.specs.WordExamples.{WordExamples};
ghost use Rattle.motion_keys.specs.WordLaws.{EachBeginHasAnEnd};

/// Worked examples of the motions by words.
pub fn word_examples()
    ensures { WordExamples }
{}

/// In a text, a motion by words finds no place only where it has no begin.
pub fn each_begin_has_an_end()
    ensures { EachBeginHasAnEnd }
{}
