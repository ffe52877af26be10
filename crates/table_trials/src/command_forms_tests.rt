//! Words that are orders, or none.

use command_forms::{CommandName, OrderError, command_named, read_order_of};
use std::alloc::{AllocError, Global};
use std::test::Fail;

// The words of a text with spaces between.
fn words_in(alloc: Global, text: &str) -> Result<Vec<String>, AllocError> {
    let mut words = Vec::new(alloc);
    for word in text.split(' ') {
        words.push(String::from_str(alloc, word)?)?;
    }
    Ok(words)
}

// What the words behind a command's name order, or what the error tells.
fn told(alloc: Global, name: CommandName, words: &[String]) -> Result<String, AllocError> {
    match read_order_of(alloc, name, words) {
        Ok(order) => format!(in alloc; "{order:?}"),
        Err(OrderError::WrongArgumentCount) => String::from_str(alloc, "count"),
        Err(OrderError::UnknownSwitch(word)) => format!(in alloc; "switch: {}", word.as_str()),
        Err(OrderError::BadValue) => String::from_str(alloc, "value"),
        Err(OrderError::NoSuchHighlighter(word)) => format!(in alloc; "type: {}", word.as_str()),
        Err(OrderError::BadSelection(word)) => format!(in alloc; "selection: {}", word.as_str()),
        Err(OrderError::NoMemory) => String::from_str(alloc, "no memory"),
    }
}

// The same for the words of a text, of which the first names the command.
fn answer(alloc: Global, text: &str) -> Result<String, AllocError> {
    let words = words_in(alloc, text)?;
    match words.as_slice() {
        [] => String::from_str(alloc, "nothing"),
        [word, more @ ..] => match command_named(word.as_str()) {
            Some(name) => told(alloc, name, more),
            None => String::from_str(alloc, "none"),
        },
    }
}

#[test]
fn words_give_their_order_or_the_error(rt: HostRuntime) -> Result<(), Fail> {
    let alloc = rt.alloc();
    let rows = [
        ("q!", "QuitForced"),
        ("e é", "Edit(Utf8Text { text: \"é\" })"),
        (
            "select -codepoint 1.02,99999999999.4",
            "Select(Selection { columns: Characters, ranges: Seq { items: [Described { anchor: ArgumentPlace { line: 1, column: 2 }, cursor: ArgumentPlace { line: 4294967295, column: 4 } }] } })",
        ),
        ("edits", "none"),
        ("quit now", "count"),
        ("echo -n x", "switch: -n"),
        ("decl -docstring t float f", "value"),
        (
            "addhl -override global/é number-lines -separator é",
            "Highlighter(Add(HighlighterWords { replace: true, path: Utf8Text { text: \"global/é\" }, words: Words { words: [\"number-lines\", \"-separator\", \"é\"] }, painter: NumberLines(LineNumbers { marked: false, separator: Utf8Text { text: \"é\" } }) }))",
        ),
        ("addhl global/ wrap", "type: wrap"),
        ("select 1.1,1.0", "selection: 1.1,1.0"),
    ];
    for (text, wanted) in rows {
        let given = answer(alloc, text)?;
        assert_eq!(rt; given.as_str(), wanted, "from {text}");
    }
    Ok(())
}
