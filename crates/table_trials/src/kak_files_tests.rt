//! Files in memory.

use kak_files::{FileRead, Files, MemFile, MemFiles};
use kak_ports::{FailingCalls, Put};
use std::alloc::Global;
use std::test::Fail;

// What an answer gives, as a text.
fn told(alloc: Global, answer: FileRead) -> Result<String, Fail> {
    Ok(match answer {
        FileRead::Bytes(bytes) => {
            let bytes = bytes.into_vec();
            String::from_str(
                alloc,
                str::from_utf8(bytes.as_slice()).unwrap_or("not UTF-8"),
            )?
        }
        FileRead::NotThere => String::from_str(alloc, "NotThere")?,
        FileRead::TooBig => String::from_str(alloc, "TooBig")?,
        FileRead::Failed => String::from_str(alloc, "Failed")?,
    })
}

// Whether a read of at most so many bytes answers this.
fn reads<F: Files>(
    alloc: Global,
    files: &mut F,
    name: &str,
    max: usize,
    expected: &str,
) -> Result<bool, Fail> {
    let answer = told(alloc, files.read(alloc, name, max)?)?;
    Ok(answer.as_str() == expected)
}

#[test]
fn files_in_memory_hold_what_was_written_and_fail_where_it_is_planned(
    rt: HostRuntime,
) -> Result<(), Fail> {
    let alloc = rt.alloc();
    let name = String::from_str(alloc, "a")?;
    let opening = vec![in alloc; MemFile::new(name, vec![in alloc; b'o', b'l', b'd']?)]?;
    let reading = FailingCalls::at(vec![in alloc; 1u64]?);
    let writing = FailingCalls::at(vec![in alloc; 1u64]?);
    let mut files = MemFiles::new(alloc, opening, 60, reading, writing)?;
    assert!(rt; reads(alloc, &mut files, "a", 3, "old")?);
    assert!(rt; reads(alloc, &mut files, "a", 3, "Failed")?);
    assert!(rt; reads(alloc, &mut files, "a", 2, "TooBig")?);
    assert!(rt; reads(alloc, &mut files, "b", 3, "NotThere")?);
    assert_eq!(rt; files.write("b", b"new"), Put::Done);
    assert_eq!(rt; files.write("b", b"newer"), Put::Failed);
    assert_eq!(rt; files.write("b", b"too long"), Put::Failed);
    assert!(rt; reads(alloc, &mut files, "b", 9, "new")?);
    assert!(rt; reads(alloc, &mut files, "a", 9, "old")?);
    Ok(())
}
