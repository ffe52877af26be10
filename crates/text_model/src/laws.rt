//! The laws of the definitions and their worked examples: each is the contract of a function that does nothing.

ghost use Rattle.std.specs.Prelude.{◌≡◌};
ghost use Rattle.text_model.specs.declared.TheConstants.{MAX_CHARS, MAX_SELECTIONS};
ghost use Rattle.text_model.specs.Laws.{LinesAreInverse, CoordinatesAreInverse, ChangesAreInverse, ChangesMakeTexts, MappingLaws};
ghost use Rattle.text_model.specs.Examples.{WorkedExamples};

/// A text is its lines one after another, and lines one after another have just these lines.
pub fn lines_are_inverse()
    ensures { LinesAreInverse }
{}

/// Offsets and coordinates lead to each other, and have the same order.
pub fn coordinates_are_inverse()
    ensures { CoordinatesAreInverse }
{}

/// A change and then its inverse give the old text.
pub fn changes_are_inverse()
    ensures { ChangesAreInverse }
{}

/// Insertions and erasures make texts of texts, and are what their single changes make; so are replacements.
pub fn changes_make_texts()
    ensures { ChangesMakeTexts }
{}

/// Places keep their order through a change, stay inside the text, and keep their characters.
pub fn mapping_keeps_order()
    ensures { MappingLaws }
{}

/// Worked examples of all definitions.
pub fn worked_examples()
    ensures { WorkedExamples }
{}

/// The limits, in numbers.
pub fn limits()
    ensures characters { MAX_CHARS ≡ 16777216 }
    ensures selections { MAX_SELECTIONS ≡ 262144 }
{}
