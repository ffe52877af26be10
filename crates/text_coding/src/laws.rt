//! The law of loading and saving, and the worked examples: each is the contract of a function that does nothing.

ghost use Rattle.text_coding.specs.Laws.{SavingIsInverse};
ghost use Rattle.text_coding.specs.Examples.{WorkedExamples};

/// Saving what the bytes of a file load as gives these bytes, where they end in a newline.
pub fn saving_is_inverse()
    ensures { SavingIsInverse }
{}

/// Worked examples of the definitions.
pub fn worked_examples()
    ensures { WorkedExamples }
{}
