//! The lines that sum a session up.

ghost use Rattle.std.specs.Prelude.{◌≡◌, string_bytes, IfOk};
ghost use Rattle.session_draws.specs.Summary.{head_text, sels_line};

use std::alloc::{AllocError, Global};

/// The first lines: how many entries, characters and lines there are.
pub fn head_text(alloc: Global, entries: u64, chars: u64, lines: u64) -> Result<String, AllocError>
    ensures { IfOk result (λ text. string_bytes text ≡ head_text entries chars lines) }
{
    format!(in alloc; "entries {entries}\nchars {chars}\nlines {lines}\n")
}

/// The line of a client: how many selections it has.
pub fn sels_line(alloc: Global, who: u32, sels: u64) -> Result<String, AllocError>
    ensures { IfOk result (λ text. string_bytes text ≡ sels_line who sels) }
{
    format!(in alloc; "client{who} sels {sels}\n")
}
