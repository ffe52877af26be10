//! Laws of the commands, and worked examples of the definitions: each is the contract of a function that does nothing.

ghost use Rattle.command_set.specs.Examples.{Examples};
ghost use Rattle.command_set.specs.PaintingExamples.{PaintingExamples};
ghost use Rattle.command_set.specs.TableExamples.{TableExamples};
ghost use Rattle.command_set.specs.Laws.{CommandsAreTame, FilesAreTame, LaterRowsAreTame, FinishFalls, FinishKeepsClients};

/// No command takes units, or lets a client come or go.
pub fn commands_are_tame()
    ensures { CommandsAreTame }
{}

/// Nor does what is made of a file, behind which fewer rows come without a unit than behind what asked for it.
pub fn files_are_tame()
    ensures { FilesAreTame }
{}

/// Nor does what a row goes on with behind hooks, in the same way.
pub fn later_rows_are_tame()
    ensures { LaterRowsAreTame }
{}

/// What is made of a pattern takes a unit where it asks for more.
pub fn finish_falls()
    ensures { FinishFalls }
{}

/// Nothing that is made of a pattern makes a client come or go.
pub fn finish_keeps_clients()
    ensures { FinishKeepsClients }
{}

/// Worked examples of the commands.
pub fn worked_examples()
    ensures { Examples }
{}

/// Faces and highlighters, at given words and worlds. The function does nothing; its clause is the list of them.
pub fn painting_examples()
    ensures { PaintingExamples }
{}

/// Key maps, aliases, defined commands and hooks, at given words and worlds. The function does nothing; its clause is the list of
/// them.
pub fn table_examples()
    ensures { TableExamples }
{}
