//! The laws of faces under names, and worked examples of the definitions.

ghost use Rattle.face_texts.specs.Laws.{NameLaws, PaletteLaws, BaseLaws};
ghost use Rattle.face_texts.specs.Examples.{WorkedExamples};

/// A name that was set has its text, one that was unset has none, and nothing else changes.
pub fn names_are_apart()
    ensures { NameLaws }
{}

/// Bases end in each table that is made of the given one, and a word that is a set name is seen as that name is.
pub fn bases_end()
    ensures { BaseLaws }
{}

/// A palette has what each of its names is seen as.
pub fn palettes_have_each()
    ensures { PaletteLaws }
{}

/// The definitions at given texts and tables. The function does nothing; its clause is the table of them.
pub fn worked_examples()
    ensures { WorkedExamples }
{}
