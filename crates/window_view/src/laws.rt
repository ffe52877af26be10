//! Worked examples of the definitions.

ghost use Rattle.window_view.specs.Examples.{Examples};
ghost use Rattle.window_view.specs.Holding.{CellsHaveOneHolder};
ghost use Rattle.window_view.specs.Least.{WindowsFollowLeast};
ghost use Rattle.window_view.specs.Sizes.{WindowsHaveTwoParts};

/// Worked examples of following.
pub fn worked_examples()
    ensures { Examples }
{}

/// No two characters of a line hold one cell.
pub fn cells_have_one_holder()
    ensures { CellsHaveOneHolder }
{}

/// A window that follows moves by the least amount that has the line and the cells inside it.
pub fn windows_follow_least()
    ensures { WindowsFollowLeast }
{}

/// A window is its corner and its size: following moves the corner alone, and all numbers are brought into a size.
pub fn windows_have_two_parts()
    ensures { WindowsHaveTwoParts }
{}
