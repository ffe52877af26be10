//! Lines of a replay.

use session_replay::{Written, read_written};

#[test]
fn lines_are_blank_or_of_a_client_or_bad(rt: HostRuntime) {
    assert_eq!(rt; read_written(2, b" \t\r"), Written::Blank);
    assert_eq!(rt; read_written(2, b"01 {}"), Written::Of(1, 3));
    assert_eq!(rt; read_written(2, b"2 {}"), Written::Bad);
}
