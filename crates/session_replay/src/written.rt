//! What a line of a replay is.

ghost use Rattle.std.specs.Prelude.{◌≡◌, ◌<◌, ◌≤◌, length, drop, option_map, IfSome};
ghost use Rattle.std.specs.List.{list_all};
ghost use Rattle.session_replay.specs.Written.{is_blank, read_number, written};
ghost use Rattle.session_replay.specs.WrittenPlaces.{written_at, IfOf};

/// What a line of a replay is.
#[derive(Clone, Copy, PartialEq, Eq, Debug)]
pub enum Written {
    /// Nothing but spaces, tabs and carriage returns, if anything.
    Blank,
    /// A line of a client: its number, and at which byte its line begins.
    Of(u32, usize),
    /// No line of any client.
    Bad,
}

// Whether a byte is a space, a tab or a carriage return.
fn is_blank(byte: u8) -> bool
    ensures { result ≡ is_blank byte }
{
    byte == b' ' || byte == b'\t' || byte == b'\r'
}

// Whether a line has nothing but blanks.
fn is_blank_line(line: &[u8]) -> bool
    ensures { result ≡ list_all is_blank line.now }
{
    line.iter().all(|byte| is_blank(*byte))
}

// Reads the number of a client at the front of a line, and gives it with the place behind the space that ends it.
fn read_number(line: &[u8]) -> Option<(u32, usize)>
    ensures number { option_map (λ read. (read.0, drop read.1 line.now)) result ≡ read_number 0 0 line.now }
    ensures place { IfSome result (λ read. read.1 ≤ length line.now) }
{
    let mut number = 0;
    for (i, &byte) in line.iter().enumerate() {
        if byte == b' ' {
            return if i > 0 { Some((number, i + 1)) } else { None };
        }
        if i == 4 || !byte.is_ascii_digit() {
            return None;
        }
        number = 10 * number + u32::from(byte - b'0');
    }
    None
}

/// What a line, without its newline, is in a replay of so many clients.
pub fn read_written(count: u32, line: &[u8]) -> Written
    ensures reading { written_at line.now result ≡ written count line.now }
    ensures client { IfOf result (λ who from. who < count) }
    ensures place { IfOf result (λ who from. from ≤ length line.now) }
{
    if is_blank_line(line) {
        return Written::Blank;
    }
    match read_number(line) {
        Some((who, from)) if who < count => Written::Of(who, from),
        _ => Written::Bad,
    }
}
