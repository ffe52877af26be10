//! Going over the characters of a line up to a byte of theirs.

ghost use Rattle.std.specs.Prelude.{◌≡◌, ◌≤◌, length};
ghost use Rattle.text_model.specs.declared.TheConstants.{MAX_CHARS};
ghost use Rattle.compact_chars.specs.Rows.{chars_of};
ghost use Rattle.regex_ports.specs.Matching.{chars_before};
ghost use Rattle.highlight_paint.specs.Walks.{IsLineWalk};

use compact_chars::CharsRef;

/// How far the characters of a line have been gone over: how many were passed, and how many bytes of UTF-8 these have.
#[derive(Clone, Copy, Debug)]
pub(crate) struct LineWalk {
    pub(crate) passed: usize,
    pub(crate) bytes: usize,
}

/// The walk before its first step.
pub(crate) fn walk_start() -> LineWalk
    ensures { result ≡ record { passed = 0; bytes = 0 } }
{
    LineWalk {
        passed: 0,
        bytes: 0,
    }
}

// A walk, or, where it is beyond a byte already, the one before the first step.
fn not_beyond(line: CharsRef<'_>, from: LineWalk, byte: usize) -> LineWalk
    requires { IsLineWalk (chars_of line) from }
    ensures walk { IsLineWalk (chars_of line.entry) result }
    ensures before { result.bytes ≤ byte }
{
    if from.bytes <= byte {
        return from;
    }
    walk_start()
}

/// The walk over the characters that begin before a byte; a walk up to a byte that isn't behind that one shortens the way.
pub(crate) fn walk_to(line: CharsRef<'_>, from: LineWalk, byte: usize) -> LineWalk
    requires walk { IsLineWalk (chars_of line) from }
    requires short { length (chars_of line) ≤ MAX_CHARS }
    ensures walk { IsLineWalk (chars_of line.entry) result }
    ensures passed { result.passed ≡ chars_before (chars_of line.entry) byte }
{
    let mut walk = not_beyond(line, from, byte);
    while walk.passed < line.len() {
        if byte <= walk.bytes {
            return walk;
        }
        walk = LineWalk {
            passed: walk.passed + 1,
            bytes: walk.bytes + line.at(walk.passed).len_utf8(),
        };
    }
    walk
}
