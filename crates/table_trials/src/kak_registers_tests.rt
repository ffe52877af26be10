//! Registers and the words that name them.

use byte_texts::Words;
use kak_registers::{RegisterError, Registers, register_named};
use std::alloc::{AllocError, Global};
use std::test::Fail;

// A list of these strings.
fn words(alloc: Global, strings: &[&str]) -> Result<Words, AllocError> {
    let mut list = Words::new(alloc);
    for string in strings {
        list.push(String::from_str(alloc, *string)?)?;
    }
    Ok(list)
}

#[test]
fn registers_give_their_strings(rt: HostRuntime) -> Result<(), Fail> {
    let alloc = rt.alloc();
    let mut registers = Registers::new(alloc);
    registers.set(alloc, 'a', &words(alloc, &["one", "two"])?)?;
    registers.set(alloc, '"', &words(alloc, &["é"])?)?;
    registers.set(alloc, 'a', &words(alloc, &["new", "er", "est"])?)?;
    registers.set(alloc, '_', &words(alloc, &["gone"])?)?;
    let rows = [
        ('a', 0, "new"),
        ('a', 2, "est"),
        ('a', 9, "est"),
        ('"', 1, "é"),
        ('b', 0, ""),
        ('_', 0, ""),
        ('%', 0, ""),
    ];
    for (name, n, wanted) in rows {
        assert_eq!(rt; registers.nth(name, n), wanted, "of {name} at {n}");
    }
    let held = registers.get('a').ok_or("a has none")?;
    assert_eq!(rt; held.len(), 3);
    assert!(rt; registers.get('.').is_none());
    assert!(rt; registers.get('A').is_none());
    Ok(())
}

#[test]
fn names_that_cannot_be_set_are_refused(rt: HostRuntime) -> Result<(), Fail> {
    let alloc = rt.alloc();
    let mut registers = Registers::new(alloc);
    let one = words(alloc, &["x"])?;
    let rows = [
        ('!', RegisterError::NoRegister('!')),
        ('A', RegisterError::NoRegister('A')),
        ('%', RegisterError::ReadOnly('%')),
        ('.', RegisterError::ReadOnly('.')),
    ];
    for (name, error) in rows {
        assert_eq!(rt; registers.set(alloc, name, &one).err(), Some(error));
    }
    Ok(())
}

#[test]
fn a_register_is_full_above_its_limit(rt: HostRuntime) -> Result<(), Fail> {
    let alloc = rt.alloc();
    let mut part = String::from_str(alloc, "é")?;
    for _ in 0..20 {
        let again = String::from_str(alloc, part.as_str())?;
        part.push_str(again.as_str())?;
    }
    let mut all = Words::new(alloc);
    for _ in 0..16 {
        all.push(String::from_str(alloc, part.as_str())?)?;
    }
    let mut registers = Registers::new(alloc);
    registers.set(alloc, 'z', &all)?;
    all.push(String::from_str(alloc, "x")?)?;
    let answer = registers.set(alloc, 'z', &all).err();
    assert_eq!(rt; answer, Some(RegisterError::RegisterFull));
    assert_eq!(rt; registers.nth('z', 99).len(), 2_097_152);
    Ok(())
}

#[test]
fn words_name_registers(rt: HostRuntime) {
    let rows = [
        ("q", Some('q')),
        ("dquote", Some('"')),
        ("percent", Some('%')),
        ("underscore", Some('_')),
        ("Q", None),
        ("é", None),
        ("", None),
        ("dquot", None),
    ];
    for (word, name) in rows {
        assert_eq!(rt; register_named(word), name, "from {word}");
    }
}
