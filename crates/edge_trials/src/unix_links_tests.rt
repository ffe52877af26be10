//! Links and acceptors over Unix sockets in the current folder.

use client_links::{Acceptor, Bound, Heard, Link, Next};
use kak_ports::Put;
use std::io::{Read, Write};
use std::os::unix::fs::PermissionsExt;
use std::os::unix::net::{UnixListener, UnixStream};
use std::test::Fail;
use std::time::{Duration, Instant};
use std::{fs, thread};
use unix_links::socket::HEARING_MILLIS;
use unix_links::{Bell, UnixAcceptor};

#[test]
fn bytes_come_and_go_over_a_socket(rt: HostRuntime) -> Result<(), Fail> {
    let mut acceptor = UnixAcceptor::new(&rt, rt.alloc(), Bell::new(&rt, rt.alloc())?);
    assert_eq!(rt; acceptor.bind(&rt, "unix-links-bytes"), Bound::Up);
    let mut client = UnixStream::connect(&rt, "unix-links-bytes.kak")?;
    let Next::Came(mut link) = acceptor.next(&rt) else {
        panic!(rt; "no link");
    };
    let mut into = [0u8; 4];
    assert_eq!(rt; link.recv(&rt, &mut into), Heard::Idle);
    assert_eq!(rt; client.write(b"abc")?, 3);
    assert_eq!(rt; link.recv(&rt, &mut into), Heard::Got(3));
    assert_eq!(rt; &into[..3], b"abc".as_slice());
    assert_eq!(rt; link.send(&rt, b"xy"), Put::Done);
    assert_eq!(rt; client.read(&mut into)?, 2);
    drop(client);
    assert_eq!(rt; link.recv(&rt, &mut into), Heard::End);
    assert_eq!(rt; link.send(&rt, b"z"), Put::Failed);
    Ok(())
}

#[test]
fn a_session_has_one_server_and_its_socket_is_private_and_goes_with_it(
    rt: HostRuntime,
) -> Result<(), Fail> {
    let path = "unix-links-door.kak";
    // what a dead server left
    drop(UnixListener::bind(&rt, path)?);
    let mut acceptor = UnixAcceptor::new(&rt, rt.alloc(), Bell::new(&rt, rt.alloc())?);
    assert!(rt; matches!(acceptor.next(&rt), Next::Idle));
    assert_eq!(rt; acceptor.bind(&rt, "unix-links-door"), Bound::Up);
    assert_eq!(rt;
        fs::metadata(&rt, path)?.permissions().mode() & 0o777,
        0o600
    );
    let mut other = UnixAcceptor::new(&rt, rt.alloc(), Bell::new(&rt, rt.alloc())?);
    assert_eq!(rt; other.bind(&rt, "unix-links-door"), Bound::Failed);
    assert!(rt; matches!(acceptor.next(&rt), Next::Idle));
    drop(acceptor);
    assert!(rt; !fs::exists(&rt, path)?);
    assert_eq!(rt; other.bind(&rt, "unix-links-door"), Bound::Up);
    Ok(())
}

#[test]
fn nothing_but_a_dead_socket_is_taken_over(rt: HostRuntime) -> Result<(), Fail> {
    let path = "unix-links-file.kak";
    fs::write(&rt, path, "not a socket")?;
    let mut acceptor = UnixAcceptor::new(&rt, rt.alloc(), Bell::new(&rt, rt.alloc())?);
    let bound = acceptor.bind(&rt, "unix-links-file");
    fs::remove_file(&rt, path)?;
    assert_eq!(rt; bound, Bound::Failed);
    let foreign = UnixListener::bind(&rt, path)?;
    let bound = acceptor.bind(&rt, "unix-links-file");
    fs::remove_file(&rt, path)?;
    drop(foreign);
    assert_eq!(rt; bound, Bound::Failed);
    assert_eq!(rt; acceptor.bind(&rt, "unix-links/file"), Bound::Failed);
    Ok(())
}

// Reads all that comes, slowly, and tells how many bytes it was.
fn read_slowly(rt: &HostRuntime, client: &mut UnixStream) -> u64 {
    let mut into = [0u8; 65_536];
    let mut total = 0u64;
    for _ in 0..100 {
        thread::sleep(rt, Duration::from_millis(30));
        match client.read(&mut into) {
            Ok(0) => return total,
            Ok(count) => total = total.saturating_add(count as u64),
            Err(_) => return total,
        }
    }
    total
}

#[test]
fn all_bytes_reach_a_client_that_reads_slowly(rt: HostRuntime) -> Result<(), Fail> {
    let mut acceptor = UnixAcceptor::new(&rt, rt.alloc(), Bell::new(&rt, rt.alloc())?);
    assert_eq!(rt; acceptor.bind(&rt, "unix-links-slow"), Bound::Up);
    let mut client = UnixStream::connect(&rt, "unix-links-slow.kak")?;
    let Next::Came(mut link) = acceptor.next(&rt) else {
        panic!(rt; "no link");
    };
    let bytes = Vec::from_elem(rt.alloc(), 7u8, 1_000_000)?;
    let (sent, read) = thread::join(
        &rt,
        move || {
            let put = link.send(&rt, bytes.as_slice());
            let _closed = link.finish();
            put
        },
        || read_slowly(&rt, &mut client),
    );
    assert_eq!(rt; sent, Put::Done);
    assert_eq!(rt; read, 1_000_000);
    Ok(())
}

#[test]
fn a_bell_ends_each_wait_however_often_it_is_rung(rt: HostRuntime) -> Result<(), Fail> {
    let bell = Bell::new(&rt, rt.alloc())?;
    let mut acceptor = UnixAcceptor::new(&rt, rt.alloc(), bell.clone()?);
    assert_eq!(rt; acceptor.bind(&rt, "unix-links-bell"), Bound::Up);
    let _first = UnixStream::connect(&rt, "unix-links-bell.kak")?;
    let _second = UnixStream::connect(&rt, "unix-links-bell.kak")?;
    let (Next::Came(mut one), Next::Came(mut other)) = (acceptor.next(&rt), acceptor.next(&rt))
    else {
        panic!(rt; "no link");
    };
    let mut into = [0u8; 4];
    let start = Instant::now(&rt)?;
    for _ in 0..10 {
        for _ in 0..1_000 {
            bell.ring();
        }
        assert_eq!(rt; one.recv(&rt, &mut into), Heard::Idle);
        assert_eq!(rt; other.recv(&rt, &mut into), Heard::Idle);
    }
    // a wait that no ring ends lasts longer than all of these together
    assert!(rt; start.elapsed(&rt)? < Duration::from_millis(HEARING_MILLIS));
    Ok(())
}
