//! Files that are loaded and saved.

use std::alloc::Global;
use std::test::Fail;
use text_coding::{Bom, DecodeError, Eol, decode, encode};

// What bytes are loaded as.
fn load(alloc: Global, bytes: &[u8]) -> Result<Result<(String, Eol, Bom), DecodeError>, Fail> {
    let loaded = match decode(alloc, bytes) {
        Ok(loaded) => loaded,
        Err(error) => return Ok(Err(error)),
    };
    let mut text = String::new(alloc);
    for n in 0..loaded.text.line_count() {
        loaded.text.line(n).push_utf8(&mut text)?;
    }
    Ok(Ok((text, loaded.eol, loaded.bom)))
}

#[test]
fn bytes_are_loaded_by_their_form(rt: HostRuntime) -> Result<(), Fail> {
    let alloc = rt.alloc();
    let rows: [(&[u8], &[u8], Eol, Bom); 7] = [
        (b"", b"\n", Eol::Lf, Bom::No),
        (b"a", b"a\n", Eol::Lf, Bom::No),
        (b"a\r\nb\r\n", b"a\nb\n", Eol::Crlf, Bom::No),
        (b"a\r\nb\n", b"a\r\nb\n", Eol::Lf, Bom::No),
        (b"a\r\r\nb\r", b"a\r\nb\r\n", Eol::Crlf, Bom::No),
        (
            b"\xEF\xBB\xBF\xEF\xBB\xBF\n",
            b"\xEF\xBB\xBF\n",
            Eol::Lf,
            Bom::Utf8,
        ),
        (b"\xF0\x9F\x98\x80", b"\xF0\x9F\x98\x80\n", Eol::Lf, Bom::No),
    ];
    for (bytes, text, eol, bom) in rows {
        let Ok(loaded) = load(alloc, bytes)? else {
            assert!(rt; false, "at {bytes:?}");
            return Ok(());
        };
        assert_eq!(rt; loaded.0.as_bytes(), text);
        assert_eq!(rt; loaded.1, eol, "at {bytes:?}");
        assert_eq!(rt; loaded.2, bom, "at {bytes:?}");
    }
    Ok(())
}

#[test]
fn what_is_no_text_is_refused(rt: HostRuntime) -> Result<(), Fail> {
    let alloc = rt.alloc();
    let rows: [(&[u8], usize); 4] = [
        (b"a\xFF", 1),
        (b"\xEF\xBB\xBFab\xC3", 5),
        (b"\xED\xA0\x80", 0),
        (b"\xC0\x80", 0),
    ];
    for (bytes, at) in rows {
        let refused = load(alloc, bytes)?;
        assert!(rt;
            matches!(refused, Err(DecodeError::NotUtf8(n)) if n == at),
            "at {at}"
        );
    }
    let long = vec![in alloc; b'x'; 16_777_216]?;
    let refused = load(alloc, long.as_slice())?;
    assert!(rt; matches!(refused, Err(DecodeError::TextFull)));
    Ok(())
}

#[test]
fn a_text_is_saved_in_its_form(rt: HostRuntime) -> Result<(), Fail> {
    let alloc = rt.alloc();
    // the bytes, and whether each character has one of its own, so that their room is known before
    let rows: [(&[u8], bool); 4] = [
        (b"\xEF\xBB\xBFa\r\nb\r\n", true),
        (b"\xF0\x9F\x98\x80\n\n", false),
        (b"a\r\n\xC3\xA9b\r\nabcdefghijklmnopqrst\r\n", false),
        (b"a\r\n\r\nb\n", true),
    ];
    for (bytes, single) in rows {
        let Ok(loaded) = decode(alloc, bytes) else {
            assert!(rt; false);
            return Ok(());
        };
        let saved = encode(alloc, &loaded.text, loaded.eol, loaded.bom)?;
        assert_eq!(rt; saved.as_slice(), bytes);
        assert!(rt; !single || saved.capacity() == saved.len());
    }
    Ok(())
}

// A file of so many copies of some bytes.
fn copies(alloc: Global, count: usize, bytes: &[u8]) -> Result<Vec<u8>, Fail> {
    let mut all = Vec::new(alloc);
    for _ in 0..count {
        all.extend_from_slice(bytes)?;
    }
    Ok(all)
}

#[test]
fn a_long_text_comes_in_pieces(rt: HostRuntime) -> Result<(), Fail> {
    let alloc = rt.alloc();
    let rows: [(&[u8], usize, usize, bool); 2] = [
        (b"abcde\r\n", 12_000, 12_000, true),
        (b"a\rb", 24_000, 1, false),
    ];
    for (bytes, count, lines, ended) in rows {
        let mut file = copies(alloc, count, bytes)?;
        let Ok(loaded) = decode(alloc, file.as_slice()) else {
            assert!(rt; false);
            return Ok(());
        };
        if !ended {
            file.push(b'\n')?;
        }
        assert_eq!(rt; loaded.text.line_count(), lines);
        let saved = encode(alloc, &loaded.text, loaded.eol, loaded.bom)?;
        assert!(rt; saved.as_slice() == file.as_slice());
    }
    Ok(())
}
