//! The laws of what passes between files and whoever reads and writes them, and worked examples of the definitions. Each
//! function does nothing; its clause is what it stands for.

ghost use Rattle.std.specs.Prelude.{◌≡◌};
ghost use Rattle.kak_files.specs.declared.files.TheConstants.{MAX_FILE};
ghost use Rattle.kak_files.specs.Laws.{PassingLaws};
ghost use Rattle.kak_files.specs.Examples.{WorkedExamples};

/// Nothing passes while files stay, each read and each write passes, and one part after another.
pub fn parts_pass()
    ensures { PassingLaws }
{}

/// The limit, in numbers.
pub fn limits()
    ensures { MAX_FILE ≡ 67108867 }
{}

/// The definitions at given files.
pub fn worked_examples()
    ensures { WorkedExamples }
{}
