//! Options that are set, unset and declared.

use byte_texts::Words;
use scope_options::{OptionError, OptionType, OptionValue, Options, Scope};
use std::alloc::{AllocError, Global};
use std::test::Fail;

// The words between the blanks of a text.
fn words(alloc: Global, text: &str) -> Result<Words, AllocError> {
    let mut list = Words::new(alloc);
    for word in text.split_whitespace() {
        list.push(String::from_str(alloc, word)?)?;
    }
    Ok(list)
}

// An option's value for client 1 in buffer 2, as words.
fn shown(alloc: Global, options: &Options, name: &str) -> Result<String, AllocError> {
    match options.look(2, 1, name) {
        None => String::from_str(alloc, "none"),
        Some(OptionValue::Int(n)) => format!(in alloc; "{n}"),
        Some(OptionValue::Bool(b)) => format!(in alloc; "{b}"),
        Some(OptionValue::Str(text)) => String::from_str(alloc, text.as_str()),
        Some(OptionValue::StrList(list)) => format!(in alloc; "{} words", list.len()),
    }
}

#[test]
fn options_are_set_and_unset_by_scope(rt: HostRuntime) -> Result<(), Fail> {
    let alloc = rt.alloc();
    let mut options = Options::new(alloc)?;
    let rows = [
        (Scope::Global, "tabstop", "2", false, "2"),
        (Scope::Buffer(2), "tabstop", "3", true, "5"),
        (Scope::Window(1, 2), "tabstop", "-1", true, "4"),
        (Scope::Buffer(2), "tabstop", "64", false, "4"),
        (Scope::Buffer(3), "filetype", "x", false, ""),
        (Scope::Buffer(2), "filetype", "a", true, "a"),
        (Scope::Window(1, 2), "filetype", "b", true, "ab"),
    ];
    for (scope, name, value, add, wanted) in rows {
        options.set(alloc, scope, name, &words(alloc, value)?, add)?;
        let given = shown(alloc, &options, name)?;
        assert_eq!(rt; given.as_str(), wanted);
    }
    options.unset(Scope::Window(1, 2), "tabstop")?;
    let outer = shown(alloc, &options, "tabstop")?;
    assert_eq!(rt; outer.as_str(), "64");
    options.clear(Scope::Buffer(2));
    let outermost = shown(alloc, &options, "tabstop")?;
    assert_eq!(rt; outermost.as_str(), "2");
    Ok(())
}

#[test]
fn what_does_not_fit_is_refused(rt: HostRuntime) -> Result<(), Fail> {
    let alloc = rt.alloc();
    let mut options = Options::new(alloc)?;
    let rows = [
        ("tabstop", "nine", OptionError::BadValue),
        ("tabstop", "65", OptionError::BadValue),
        ("tabstop", "+5", OptionError::BadValue),
        ("filetype", "a b", OptionError::BadValue),
        ("eolformat", "cr", OptionError::BadValue),
        ("y", "1", OptionError::NoOption),
    ];
    for (name, value, error) in rows {
        let answer = options.set(alloc, Scope::Global, name, &words(alloc, value)?, false);
        assert_eq!(rt; answer.err(), Some(error));
    }
    let answer = options.unset(Scope::Global, "tabstop");
    assert_eq!(rt; answer.err(), Some(OptionError::NoScope));
    Ok(())
}

#[test]
fn options_are_declared_once(rt: HostRuntime) -> Result<(), Fail> {
    let alloc = rt.alloc();
    let mut options = Options::new(alloc)?;
    options.declare(alloc, OptionType::StrList, "l", &words(alloc, "a b")?)?;
    options.declare(alloc, OptionType::StrList, "l", &words(alloc, "")?)?;
    let list = shown(alloc, &options, "l")?;
    assert_eq!(rt; list.as_str(), "2 words");
    let other = options.declare(alloc, OptionType::Bool, "l", &words(alloc, "true")?);
    assert_eq!(rt; other.err(), Some(OptionError::Exists));
    let bad = options.declare(alloc, OptionType::Bool, "b", &words(alloc, "yes")?);
    assert_eq!(rt; bad.err(), Some(OptionError::BadType));
    let none = shown(alloc, &options, "b")?;
    assert_eq!(rt; none.as_str(), "none");
    Ok(())
}
