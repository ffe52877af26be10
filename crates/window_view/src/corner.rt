//! Where a window stands on a text.

ghost use Rattle.std.specs.Prelude.{◌≡◌};
ghost use Rattle.window_view.specs.Sizes.{first_corner};

/// Where a window stands on a text: its first line and its first display column, both from 0. A window that follows its
/// cursor moves its corner and keeps its size.
#[derive(Clone, Copy, Debug, PartialEq, Eq)]
pub struct Corner {
    pub top: u32,
    pub left: u32,
}

impl Corner {
    /// The corner of a window at the start of a text.
    pub fn first() -> Corner
        ensures { result ≡ first_corner }
    {
        Corner { top: 0, left: 0 }
    }
}
