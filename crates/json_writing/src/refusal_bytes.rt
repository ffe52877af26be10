//! The line of a refusal.

ghost use Rattle.std.specs.Prelude.{◌≡◌, ◌++◌, codes, OnOk};
ghost use Rattle.json_writing.specs.Grows.{Grows};
ghost use Rattle.json_writing.specs.Refusals.{refusal_code, refusal_message, refusal_bytes};

use crate::text_bytes::{push_number, push_text};
use drawings::Refusal;
use std::alloc::AllocError;

// The code of a refusal.
fn code(refusal: Refusal) -> &'static str
    ensures { result.now ≡ refusal_code refusal }
{
    match refusal {
        Refusal::TooLong | Refusal::Invalid => "-32600",
        Refusal::Parse => "-32700",
        Refusal::Method => "-32601",
        Refusal::Params | Refusal::Key(_) => "-32602",
    }
}

// Adds the message of a refusal.
fn push_message(out: &mut Vec<u8>, refusal: Refusal) -> Result<(), AllocError>
    ensures ok { OnOk result (out.new.items ≡ out.old.items ++ refusal_message refusal) }
    ensures grows { Grows out.old.items out.new.items }
{
    match refusal {
        Refusal::TooLong => push_text(out, "TooLong"),
        Refusal::Parse => push_text(out, "Parse"),
        Refusal::Invalid => push_text(out, "Invalid"),
        Refusal::Method => push_text(out, "Method"),
        Refusal::Params => push_text(out, "Params"),
        Refusal::Key(k) => {
            push_text(out, "Key ")?;
            push_number(out, k)
        }
    }
}

// Adds the code of a refusal, and what stands before it and behind it.
fn push_code(out: &mut Vec<u8>, refusal: Refusal) -> Result<(), AllocError>
    ensures ok { OnOk result (out.new.items ≡ out.old.items
        ++ (codes "{\"error\":{\"code\":" ++ (refusal_code refusal ++ codes ",\"message\":\""))) }
    ensures grows { Grows out.old.items out.new.items }
{
    push_text(out, "{\"error\":{\"code\":")?;
    push_text(out, code(refusal))?;
    push_text(out, ",\"message\":\"")
}

/// Adds the line that answers a refused line. After an error the old bytes stay, and some bytes of
/// the line may stand behind them.
pub fn encode_refusal(refusal: Refusal, out: &mut Vec<u8>) -> Result<(), AllocError>
    ensures ok { OnOk result (out.new.items ≡ out.old.items ++ refusal_bytes refusal) }
    ensures grows { Grows out.old.items out.new.items }
{
    push_code(out, refusal)?;
    push_message(out, refusal)?;
    push_text(out, "\"},\"id\":null,\"jsonrpc\":\"2.0\"}\n")?;
    Ok(())
}
