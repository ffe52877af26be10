//! Worked examples of the objects.

ghost use Rattle.text_objects.specs.RunExamples.{RunExamples};
ghost use Rattle.text_objects.specs.LineExamples.{LineExamples};
ghost use Rattle.text_objects.specs.SentenceExamples.{SentenceExamples};
ghost use Rattle.text_objects.specs.PairExamples.{PairExamples};

/// Worked examples of words, blanks and numbers.
pub fn run_examples()
    ensures { RunExamples }
{}

/// Worked examples of paragraphs and of lines by their indentation.
pub fn line_examples()
    ensures { LineExamples }
{}

/// Worked examples of sentences.
pub fn sentence_examples()
    ensures { SentenceExamples }
{}

/// Worked examples of pairs of brackets and quotes.
pub fn pair_examples()
    ensures { PairExamples }
{}
