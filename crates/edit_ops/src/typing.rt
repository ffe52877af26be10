//! Characters that go in before each cursor.

ghost use Rattle.std.specs.Prelude.{◌≡◌, map, IfOk};
ghost use Rattle.edit_ops.specs.Typing.{splice_before};

use buffer_store::Splice;
use kak_text::Chars;
use selection_set::Sel;
use std::alloc::{AllocError, Global};

/// The replacements that put characters in before the cursor of each selection, from the first to the last.
pub fn before_cursors(
    alloc: Global,
    sels: &[Sel],
    chars: &[char],
) -> Result<Vec<Splice>, AllocError>
    ensures { IfOk result (λ splices. splices.items ≡ map (splice_before chars.now) sels.now) }
{
    let mut splices = Vec::with_capacity(alloc, sels.len())?;
    for sel in sels {
        let at = sel.cursor();
        let text = Chars::from_slice(alloc, chars)?;
        splices.push_reserved(Splice {
            from: at,
            to: at,
            text,
        });
    }
    Ok(splices)
}
