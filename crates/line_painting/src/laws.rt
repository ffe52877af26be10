//! The laws, and the worked examples of the definitions.

ghost use Rattle.std.specs.Prelude.{◌≡◌, ◌<◌, ℕ, Bool, List};
ghost use Rattle.line_painting.specs.Atoms.{ShownChar, atoms_of};
ghost use Rattle.line_painting.specs.Laws.{spelled, AreRuns, PlainLinesAreCut, AsciiIsPlain, WindowsShowCells};
ghost use Rattle.line_painting.specs.Examples.{Examples};

/// The atoms of characters, spelled out again, are these characters; no atom is empty, and neighbours have different
/// faces. The function does nothing; its clauses are the laws.
pub fn atoms_are_runs()
    ensures same { (shown : List ShownChar) → spelled (atoms_of shown) ≡ shown }
    ensures runs { (shown : List ShownChar) → AreRuns (atoms_of shown) }
{}

/// Of a line of characters that have one cell each and are drawn as themselves, a window shows as many as it has
/// columns, from its first column on; the graphic characters of ASCII are such, and, where whitespace isn't drawn by signs,
/// the space and the newline. The function does nothing; its clauses are the laws.
pub fn plain_lines_are_cut()
    ensures cut { PlainLinesAreCut }
    ensures ascii { AsciiIsPlain }
{}

/// Of any line, each cell of a window shows the character that holds it, in its face, or a space where an edge of the
/// window cuts that character, and there are no more cells; the characters without cells that begin in the window are
/// shown there, in their order, and no others. The function does nothing; its clause is the law.
pub fn windows_show_cells()
    ensures { (tabstop : ℕ) (signs : Bool) → 0 < tabstop → WindowsShowCells tabstop signs }
{}

/// Characters, atoms and lines as they are drawn. The function does nothing; its clause is the table.
pub fn worked_examples()
    ensures { Examples }
{}
