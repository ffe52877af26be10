//! After how many columns tab stops come.

ghost use Rattle.std.specs.Prelude.{◌≤◌};
ghost use Rattle.kak_text.specs.declared.widths.TheConstants.{MAX_TABSTOP};

/// After how many columns each tab stop comes behind another: from 1 to 64.
#[derive(Clone, Copy, Debug, PartialEq, Eq)]
pub struct Tabstop {
    pub columns: u32,
    pub ghost some: { 1 ≤ columns },
    pub ghost few: { columns ≤ MAX_TABSTOP },
}
