//! The matches in a whole text.

ghost use Rattle.std.specs.Prelude.{◌≡◌, IfOk};
ghost use Rattle.text_model.specs.Texts.{offset, IsStored};
ghost use Rattle.selection_set.specs.Inside.{IsInside};
ghost use Rattle.selection_set.specs.Listing.{AreInside, ranges_of};
ghost use Rattle.regex_select.specs.Searching.{all_matches};
ghost use Rattle.regex_select.specs.Walks.{own_chars};

use crate::searching::spans;
use crate::taking::selected;
use line_buffer::Lines;
use regex_ports::Pattern;
use selection_set::Sel;
use smallvec::SmallVec;
use std::alloc::{AllocError, Global};

/// The selection of a whole text.
pub(crate) fn whole(lines: &Lines) -> Sel
    ensures inside { IsInside lines.now result }
    ensures low { offset lines.now result.low ≡ 0 }
    ensures chars { own_chars lines.now result ≡ lines.now }
    ensures valid { IsStored lines.now }
{
    Sel {
        low: lines.coord_of(0),
        high: lines.last_place(),
        turned: false,
        target: None,
    }
}

/// All matches of a pattern in a text, in order. It costs the text.
pub(crate) fn all_matches<P: Pattern>(
    alloc: Global,
    lines: &Lines,
    pattern: &P,
) -> Result<SmallVec<Sel, 4>, AllocError>
    ensures inside { IfOk result (λ v. AreInside lines.now v.items) }
    ensures ranges { IfOk result (λ v. ranges_of lines.now v.items ≡ all_matches (P.source pattern.now) lines.now) }
{
    let sel = whole(lines);
    let spans = spans(alloc, lines, sel, pattern)?;
    selected(alloc, lines, sel, spans.as_slice())
}
