//! The laws of seats and reports, and worked examples of the definitions. Each function does nothing; its clause is
//! what it stands for.

ghost use Rattle.ui_board.specs.Laws.{SeatLaws, ReportLaws};
ghost use Rattle.ui_board.specs.Examples.{WorkedExamples};

/// What comes to or goes from one seat leaves all others as they were.
pub fn seats_are_apart()
    ensures { SeatLaws }
{}

/// The report of all that was told is that of what was told before, and the lines of the last behind it.
pub fn reports_add_up()
    ensures { ReportLaws }
{}

/// The definitions at given boxes. The function does nothing; its clause is the list of them.
pub fn worked_examples()
    ensures { WorkedExamples }
{}
