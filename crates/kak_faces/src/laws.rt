//! Laws of the definitions, and worked examples: each is the contract of a function that does nothing.

ghost use Rattle.std.specs.Prelude.{◌≡◌};
ghost use Rattle.kak_faces.specs.Faces.{merged};
ghost use Rattle.kak_faces.specs.Examples.{WorkedExamples};

use crate::face::Face;

/// The default face is seen through and shows nothing of itself, and a face over itself is itself.
/// The function does nothing; its clauses are the laws.
pub fn merge_laws(face: Face)
    ensures default_over { merged face Face.DEFAULT ≡ face }
    ensures default_below { merged Face.DEFAULT face ≡ face }
    ensures itself { merged face face ≡ face }
{
    let _ = face;
}

/// The definitions at given faces. The function does nothing; its clause is the table.
pub fn worked_examples()
    ensures { WorkedExamples }
{}
