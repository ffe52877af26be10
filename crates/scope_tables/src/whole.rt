//! Whether a pattern matches the whole of a text.

ghost use Rattle.std.specs.Prelude.{◌≡◌, IfOk};
ghost use Rattle.scope_tables.specs.Whole.{is_all, is_whole};

use regex_ports::{Pattern, Span};
use std::alloc::{AllocError, Global};

// Whether a span is the whole of a text of so many bytes.
fn is_all(span: &Span, end: usize) -> bool
    ensures { result ≡ is_all end span.now }
{
    span.start == 0 && span.end == end
}

/// Whether one of the pattern's matches in a text is the whole of it.
pub(crate) fn is_whole<P: Pattern>(
    alloc: Global,
    pattern: &P,
    text: &str,
) -> Result<bool, AllocError>
    ensures { IfOk result (λ whole. whole ≡ is_whole (P.source pattern.now) text.now) }
{
    let end = text.len();
    let found = pattern.matches(alloc, text)?;
    for span in found.as_slice() {
        if is_all(span, end) {
            return Ok(true);
        }
    }
    Ok(false)
}
