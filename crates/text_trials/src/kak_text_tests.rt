//! Characters, their classes and their cells, and texts.

use kak_text::{Chars, Class, Text, cells, class};
use std::test::Fail;

#[test]
fn characters_have_their_classes(rt: HostRuntime) -> Result<(), Fail> {
    let rows = [
        ('\n', Class::Line),
        ('\t', Class::Blank),
        (' ', Class::Blank),
        ('\u{A0}', Class::Blank),
        ('\u{3000}', Class::Blank),
        ('_', Class::Word),
        ('Z', Class::Word),
        ('ß', Class::Word),
        ('漢', Class::Word),
        ('7', Class::Word),
        ('Ⅷ', Class::Word),
        ('½', Class::Word),
        ('-', Class::Mark),
        ('€', Class::Mark),
        ('\u{301}', Class::Mark),
        ('😀', Class::Mark),
        ('\r', Class::Mark),
    ];
    for (c, expected) in rows {
        assert_eq!(rt; class(c), expected, "of {c:?}");
    }
    assert_eq!(rt; class('-').wide(), Class::Word);
    assert_eq!(rt; class(' ').wide(), Class::Blank);
    assert!(rt; class('a').is(Class::Word));
    assert!(rt; !class('a').is(Class::Mark));
    Ok(())
}

#[test]
fn characters_take_their_cells(rt: HostRuntime) -> Result<(), Fail> {
    let rows = [
        ('\t', 0, 8, 8),
        ('\t', 3, 8, 5),
        ('\t', 8, 8, 8),
        ('a', 3, 8, 1),
        ('\n', 3, 8, 1),
        ('\u{1B}', 3, 8, 1),
        ('漢', 3, 8, 2),
        ('😀', 3, 8, 2),
        ('\u{301}', 3, 8, 0),
        ('½', 3, 8, 1),
        ('\u{A0}', 3, 8, 1),
        ('\t', 3, 1, 1),
        ('\t', 3, 64, 61),
    ];
    for (c, column, tabstop, expected) in rows {
        assert!(rt; column < 9);
        assert!(rt; 0 < tabstop);
        assert!(rt; tabstop <= 64);
        assert_eq!(rt;
            cells(c, column, tabstop),
            expected,
            "of {c:?} at {column} by {tabstop}"
        );
    }
    Ok(())
}

#[test]
fn a_text_gets_its_last_newline(rt: HostRuntime) -> Result<(), Fail> {
    let bare = Text::of_chars(rt.alloc(), &['a', 'b'])?;
    assert_eq!(rt; bare.as_slice(), ['a', 'b', '\n'].as_slice());
    let ended = Text::of_chars(rt.alloc(), &['a', '\n'])?;
    assert_eq!(rt; ended.as_slice(), ['a', '\n'].as_slice());
    let empty = Text::of_chars(rt.alloc(), &[])?;
    assert_eq!(rt; empty.as_slice(), ['\n'].as_slice());
    assert_eq!(rt; empty.len(), 1);
    let again = Text::of_vec(ended.into_vec());
    assert_eq!(rt; again.len(), 2);
    let newline = Text::newline(rt.alloc())?;
    assert_eq!(rt; newline.as_slice(), ['\n'].as_slice());
    Ok(())
}

#[test]
fn characters_are_added_and_taken(rt: HostRuntime) -> Result<(), Fail> {
    let mut chars = Chars::from_str(rt.alloc(), "aé")?;
    chars.push('!')?;
    chars.extend_from_slice(&['x', 'y'])?;
    assert_eq!(rt; chars.as_slice(), ['a', 'é', '!', 'x', 'y'].as_slice());
    assert_eq!(rt; chars.pop(), Some('y'));
    assert_eq!(rt; chars.len(), 4);
    let copy = chars.copy(rt.alloc())?;
    chars.clear();
    assert!(rt; chars.is_empty());
    assert_eq!(rt; chars.pop(), None);
    assert_eq!(rt; copy.as_slice(), ['a', 'é', '!', 'x'].as_slice());
    Ok(())
}

#[test]
fn few_and_many_characters_are_held(rt: HostRuntime) -> Result<(), Fail> {
    let chars = Chars::of_vec(vec![in rt.alloc(); 'a', 'b']?);
    assert_eq!(rt; chars.as_slice(), ['a', 'b'].as_slice());
    let none = Chars::new(rt.alloc());
    assert!(rt; none.is_empty());
    let many = Chars::of_vec(vec![in rt.alloc(); 'a', 'b', 'c', 'd', 'e']?);
    assert_eq!(rt; many.len(), 5);
    let again = Chars::repeated(rt.alloc(), 'z', 5)?;
    assert_eq!(rt; again.as_slice(), ['z', 'z', 'z', 'z', 'z'].as_slice());
    Ok(())
}
