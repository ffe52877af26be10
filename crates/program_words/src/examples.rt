//! Worked examples of the definitions.

ghost use Rattle.program_words.specs.FileExamples.{FileExamples};
ghost use Rattle.program_words.specs.GenExamples.{GenExamples};
ghost use Rattle.program_words.specs.ServerExamples.{ServerExamples};

/// Names of files, and the keys that open them. The function does nothing; its clause is the table.
pub fn file_examples()
    ensures { FileExamples }
{}

/// A server's words, and what they name. The function does nothing; its clause is the table.
pub fn server_examples()
    ensures { ServerExamples }
{}

/// The words of generated sessions, and what they name. The function does nothing; its clause is the table.
pub fn gen_examples()
    ensures { GenExamples }
{}
