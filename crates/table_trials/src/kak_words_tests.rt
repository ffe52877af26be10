//! Texts that are read as commands of words, and words that are quoted.

ghost use Rattle.std.specs.Prelude.{Some, None, [], ◌∷◌, if◌then◌else◌, codes};
ghost use Rattle.std.specs.Str.{bytes_eq};

use byte_texts::Words;
use kak_words::{Lookup, WordError, expand, quote, read_commands};
use std::alloc::{AllocError, Global};
use std::test::Fail;

// A table in which each name of the kind `val` stands for itself and its kind.
#[derive(Drop)]
struct Both;

impl Lookup for Both {
    ghost table = { λ _ kind name. (if bytes_eq kind (codes "val") then Some (name ∷ kind ∷ []) else None) };

    fn look(&self, alloc: Global, kind: &str, name: &str) -> Result<Option<Words>, AllocError> {
        if kind != "val" {
            return Ok(None);
        }
        let mut words = Words::new(alloc);
        words.push(String::from_str(alloc, name)?)?;
        words.push(String::from_str(alloc, kind)?)?;
        Ok(Some(words))
    }
}

// What the commands of a text expand to, each word before a bar and each command before a newline.
fn expanded(alloc: Global, text: &str) -> Result<String, WordError> {
    let mut shown = String::new(alloc);
    for command in read_commands(alloc, text)?.as_slice() {
        for word in expand(alloc, command, &Both)?.as_slice() {
            shown.push_str(word.as_str())?;
            shown.push_str("|")?;
        }
        shown.push_str("\n")?;
    }
    Ok(shown)
}

// The same, or what the error tells.
fn answer(alloc: Global, text: &str) -> Result<String, AllocError> {
    match expanded(alloc, text) {
        Ok(shown) => Ok(shown),
        Err(WordError::Unclosed(at)) => format!(in alloc; "unclosed {at}"),
        Err(WordError::UnknownExpansion(name)) => Ok(name.into_string()),
        Err(WordError::NoMemory) => String::from_str(alloc, "no memory"),
    }
}

#[test]
fn texts_give_their_commands_or_the_error(rt: HostRuntime) -> Result<(), Fail> {
    let alloc = rt.alloc();
    let rows = [
        (
            "echo 'it''s' %{a{b}c} \"x\"\"y\"",
            "echo|it's|a{b}c|x\"y|\n",
        ),
        ("a;;b # c\n#d;e\n\\#f", "a|\nb|#|c|\n#f|\n"),
        ("x%y \"<%val{é}>\" %val|é|", "x%y|<é val>|é|val|\n"),
        ("é 'b", "unclosed 2"),
        ("a %opt(b) c", "b"),
        (" \t\n;", ""),
    ];
    for (text, wanted) in rows {
        let given = answer(alloc, text)?;
        assert_eq!(rt; given.as_str(), wanted, "from {text}");
    }
    Ok(())
}

#[test]
fn a_quoted_word_is_read_back(rt: HostRuntime) -> Result<(), Fail> {
    let alloc = rt.alloc();
    let text = quote(alloc, "it's; %{\"é\n#")?;
    assert_eq!(rt; text.as_str(), "'it''s; %{\"é\n#'");
    let given = answer(alloc, text.as_str())?;
    assert_eq!(rt; given.as_str(), "it's; %{\"é\n#|\n");
    Ok(())
}
