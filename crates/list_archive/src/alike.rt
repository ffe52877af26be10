//! Whether two lists of selections on one text are alike.

ghost use Rattle.std.specs.Prelude.{◌≡◌};
ghost use Rattle.list_archive.specs.Archives.{is_same_place, is_alike_sel, are_alike_sels, alike_listed};

use selection_set::{Sel, Sels};
use text_model::Coord;

// Whether two places are one.
fn is_same_place(a: Coord, b: Coord) -> bool
    ensures { result ≡ is_same_place a b }
{
    a.line == b.line && a.column == b.column
}

// Whether two selections are alike.
fn is_alike(a: Sel, b: Sel) -> bool
    ensures { result ≡ is_alike_sel a b }
{
    is_same_place(a.low, b.low)
        && is_same_place(a.high, b.high)
        && (if a.turned { b.turned } else { !b.turned })
}

// Whether as many selections are alike, one by one.
fn are_alike(a: &[Sel], b: &[Sel]) -> bool
    ensures { result ≡ are_alike_sels a.now b.now }
{
    if a.len() != b.len() {
        return false;
    }
    for n in 0..a.len() {
        if !is_alike(a[n], b[n]) {
            return false;
        }
    }
    true
}

/// Whether two lists have the same selections, turned alike, and the same main one; where they aim isn't compared.
pub(crate) fn alike(a: &Sels, b: &Sels) -> bool
    ensures { result ≡ alike_listed a.now b.now }
{
    are_alike(a.as_slice(), b.as_slice()) && a.main() == b.main()
}
