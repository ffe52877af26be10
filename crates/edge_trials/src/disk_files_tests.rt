//! Files of the disk, each test in a folder of its own.

use disk_files::DiskFiles;
use kak_files::{FileRead, Files};
use kak_ports::Put;
use std::alloc::Global;
use std::fs;
use std::os::unix::fs::{MetadataExt, PermissionsExt, symlink};
use std::path::PathBuf;
use std::test::Fail;

// What an answer gives, as a text.
fn told(alloc: Global, answer: FileRead) -> Result<String, Fail> {
    Ok(match answer {
        FileRead::Bytes(bytes) => {
            let bytes = bytes.into_vec();
            String::from_str(
                alloc,
                str::from_utf8(bytes.as_slice()).unwrap_or("not UTF-8"),
            )?
        }
        FileRead::NotThere => String::from_str(alloc, "NotThere")?,
        FileRead::TooBig => String::from_str(alloc, "TooBig")?,
        FileRead::Failed => String::from_str(alloc, "Failed")?,
    })
}

// Whether a read of at most so many bytes answers this.
fn reads<F: Files>(
    alloc: Global,
    files: &mut F,
    name: &str,
    max: usize,
    expected: &str,
) -> Result<bool, Fail> {
    let answer = told(alloc, files.read(alloc, name, max)?)?;
    Ok(answer.as_str() == expected)
}

// A folder of its own for a test.
fn folder(rt: &HostRuntime, name: &str) -> Result<PathBuf, Fail> {
    let alloc = rt.alloc();
    for n in 0..1000 {
        let own = format!(in alloc; "kak_files-{name}-{n}")?;
        let path = std::env::temp_dir(rt)?.join(alloc, own.as_str())?;
        if fs::create_dir(rt, path.as_path()).is_ok() {
            return Ok(path);
        }
    }
    Ok(PathBuf::new(alloc))
}

// How many files are in a folder.
fn count_files(rt: &HostRuntime, folder: &PathBuf) -> Result<usize, Fail> {
    let mut count = 0usize;
    for entry in fs::read_dir(rt, folder.as_path())? {
        let _ = entry?;
        count = count.saturating_add(1);
    }
    Ok(count)
}

// A file is written, gets a mode, and is written again by a link to it. Whether it is another file of that mode then.
fn is_replaced(rt: &HostRuntime, path: &str, link: &str) -> Result<bool, Fail> {
    let mut files = DiskFiles::new(rt, rt.alloc());
    let made = files.write(path, b"old");
    fs::set_permissions(rt, path, fs::Permissions::from_mode(0o640))?;
    symlink(rt, "a", link)?;
    let before = fs::metadata(rt, path)?.ino();
    let written = files.write(link, b"newer");
    let data = fs::metadata(rt, path)?;
    let other = data.ino() != before && data.mode() & 0o777 == 0o640;
    Ok(other && made == Put::Done && written == Put::Done)
}

#[test]
fn files_of_the_disk_are_replaced_whole_and_keep_their_mode(rt: HostRuntime) -> Result<(), Fail> {
    let alloc = rt.alloc();
    let folder = folder(&rt, "replaced")?;
    let path = folder.join(alloc, "a")?;
    let link = folder.join(alloc, "link")?;
    let mut files = DiskFiles::new(&rt, alloc);
    assert!(rt; reads(alloc, &mut files, path.as_str(), 9, "NotThere")?);
    assert!(rt; is_replaced(&rt, path.as_str(), link.as_str())?);
    assert!(rt; fs::symlink_metadata(&rt, link.as_path())?.is_symlink());
    assert!(rt; reads(alloc, &mut files, path.as_str(), 5, "newer")?);
    assert!(rt; reads(alloc, &mut files, path.as_str(), 4, "TooBig")?);
    assert!(rt; reads(alloc, &mut files, folder.as_str(), 9, "Failed")?);
    assert_eq!(rt; files.write(folder.as_str(), b"x"), Put::Failed);
    assert_eq!(rt; count_files(&rt, &folder)?, 2);
    fs::remove_dir_all(&rt, folder.as_path())?;
    Ok(())
}

#[test]
fn files_with_two_names_and_devices_are_written_in_place(rt: HostRuntime) -> Result<(), Fail> {
    let alloc = rt.alloc();
    let folder = folder(&rt, "in_place")?;
    let one = folder.join(alloc, "one")?;
    let other = folder.join(alloc, "other")?;
    let mut files = DiskFiles::new(&rt, alloc);
    assert_eq!(rt; files.write(one.as_str(), b"longer"), Put::Done);
    fs::hard_link(&rt, one.as_path(), other.as_path())?;
    assert_eq!(rt; files.write(one.as_str(), b"new"), Put::Done);
    assert!(rt; reads(alloc, &mut files, other.as_str(), 9, "new")?);
    assert_eq!(rt; files.write("/dev/null", b"gone"), Put::Done);
    assert!(rt; reads(alloc, &mut files, "/dev/zero", 9, "TooBig")?);
    assert_eq!(rt; count_files(&rt, &folder)?, 2);
    fs::remove_dir_all(&rt, folder.as_path())?;
    Ok(())
}

// Whether neither a read nor a write of a name comes about, and the read says so.
fn is_refused<F: Files>(alloc: Global, files: &mut F, name: &str) -> Result<bool, Fail> {
    let refused = reads(alloc, files, name, 9, "Failed")?;
    Ok(refused && files.write(name, b"new") == Put::Failed)
}

// A link in a folder to a file by its name.
fn link_to(rt: &HostRuntime, folder: &PathBuf, link: &str, file: &str) -> Result<PathBuf, Fail> {
    let path = folder.join(rt.alloc(), link)?;
    symlink(rt, file, path.as_str())?;
    Ok(path)
}

#[test]
fn what_cannot_be_opened_is_not_told_as_missing(rt: HostRuntime) -> Result<(), Fail> {
    let alloc = rt.alloc();
    let folder = folder(&rt, "unopened")?;
    let file = folder.join(alloc, "file")?;
    let through = file.join(alloc, "in")?;
    let circle = link_to(&rt, &folder, "circle", "circle")?;
    let nowhere = link_to(&rt, &folder, "nowhere", "missing")?;
    let letters = Vec::from_elem(alloc, b'a', 256)?;
    let long = folder.join(alloc, str::from_utf8(letters.as_slice())?)?;
    let mut files = DiskFiles::new(&rt, alloc);
    assert_eq!(rt; files.write(file.as_str(), b"old"), Put::Done);
    assert!(rt; is_refused(alloc, &mut files, through.as_str())?);
    assert!(rt; is_refused(alloc, &mut files, circle.as_str())?);
    assert!(rt; is_refused(alloc, &mut files, long.as_str())?);
    assert!(rt; reads(alloc, &mut files, nowhere.as_str(), 9, "NotThere")?);
    assert!(rt; reads(alloc, &mut files, file.as_str(), 9, "old")?);
    assert_eq!(rt; count_files(&rt, &folder)?, 3);
    fs::remove_dir_all(&rt, folder.as_path())?;
    Ok(())
}
