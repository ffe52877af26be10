//! A server's words.

use program_words::{WordsError, read_words};
use std::test::Fail;

#[test]
fn words_name_a_session_and_a_file(rt: HostRuntime) -> Result<(), Fail> {
    let alloc = rt.alloc();
    let mut words = Vec::new(alloc);
    for word in ["-s", "work", "notes of today"] {
        words.push(String::from_str(alloc, word)?)?;
    }
    let Ok(named) = read_words(alloc, words.as_slice()) else {
        return Err("these are a server's words".into());
    };
    assert_eq!(rt; named.session.as_str(), "work");
    assert_eq!(rt; named.file.as_deref(), Some("notes of today"));
    let unnamed = read_words(alloc, &[]);
    assert_eq!(rt; unnamed.err(), Some(WordsError::Usage));
    Ok(())
}
