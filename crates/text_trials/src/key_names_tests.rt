//! Key texts that are read, and keys that are printed.

use key_names::{Base, Key, KeyError, Keys, print_key, read_keys};
use std::test::Fail;

#[test]
fn printed_keys_are_the_canonical_text(rt: HostRuntime) -> Result<(), Fail> {
    let rows = [
        ("ihi<esc>", "ihi<esc>"),
        ("<a-c-x>", "<c-a-x>"),
        ("<s-a>", "A"),
        ("a b+\n", "a<space>b<plus><ret>"),
        ("<c-f12>é", "<c-F12>é"),
        ("<c-->", "<c-minus>"),
    ];
    for (text, canonical) in rows {
        let mut printed = String::new(rt.alloc());
        for key in read_keys(rt.alloc(), text)?.iter() {
            printed.push_str(print_key(rt.alloc(), *key)?.as_str())?;
        }
        assert_eq!(rt; printed.as_str(), canonical, "from {text}");
    }
    Ok(())
}

#[test]
fn the_place_of_a_bad_key_counts_characters(rt: HostRuntime) {
    let rows = [
        ("<nope>", 0),
        ("éé<nope>", 2),
        ("ia<c-c-x>", 2),
        ("a<esc", 1),
        ("<F13>", 0),
        ("\u{85}", 0),
    ];
    for (text, at) in rows {
        let answer = read_keys(rt.alloc(), text).err();
        assert_eq!(rt; answer, Some(KeyError::BadKey(at)), "from {text}");
    }
}

#[test]
fn keys_are_given_back_as_they_were(rt: HostRuntime) -> Result<(), Fail> {
    let keys = Keys::of_vec(read_keys(rt.alloc(), "<c-x>")?);
    let wanted = Key {
        control: true,
        alt: false,
        shift: false,
        base: Base::Char('x'),
    };
    assert_eq!(rt; keys.as_slice(), [wanted].as_slice());
    assert_eq!(rt; keys.into_vec().len(), 1);
    Ok(())
}
