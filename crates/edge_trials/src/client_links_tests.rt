//! Links and acceptors in memory.

use client_links::{Acceptor, Bound, Heard, Link, MemAcceptor, MemLink, Next};
use kak_ports::{FailingCalls, Put};
use std::test::Fail;

#[test]
fn a_memory_link_gives_its_script_piece_by_piece(rt: HostRuntime) -> Result<(), Fail> {
    let alloc = rt.alloc();
    let script = [[1u8, 2, 3].as_slice(), [].as_slice(), [4u8].as_slice()];
    let hearing = FailingCalls::at(vec![in alloc; 1u64]?);
    let mut link = MemLink::new(alloc, &script, 0, hearing, FailingCalls::none(alloc))?;
    let mut into = [0u8; 2];
    assert_eq!(rt; link.recv(&rt, &mut into), Heard::Got(2));
    assert_eq!(rt; into[1], 2);
    assert_eq!(rt; link.recv(&rt, &mut into), Heard::Failed);
    assert_eq!(rt; link.recv(&rt, &mut into), Heard::Got(1));
    assert_eq!(rt; into[0], 3);
    assert_eq!(rt; link.recv(&rt, &mut into), Heard::Idle);
    assert_eq!(rt; link.recv(&rt, &mut into), Heard::Got(1));
    assert_eq!(rt; into[0], 4);
    assert_eq!(rt; link.recv(&rt, &mut into), Heard::End);
    assert_eq!(rt; link.finish().received(), [1u8, 2, 3, 4].as_slice());
    Ok(())
}

#[test]
fn a_memory_link_keeps_what_is_sent_and_fails_where_it_is_planned(
    rt: HostRuntime,
) -> Result<(), Fail> {
    let alloc = rt.alloc();
    let sending = FailingCalls::at(vec![in alloc; 1u64]?);
    let mut link = MemLink::new(alloc, &[], 5, FailingCalls::none(alloc), sending)?;
    assert_eq!(rt; link.send(&rt, &[1, 2]), Put::Done);
    assert_eq!(rt; link.send(&rt, &[3, 4]), Put::Failed);
    assert_eq!(rt; link.send(&rt, &[5, 6]), Put::Done);
    assert_eq!(rt; link.send(&rt, &[7]), Put::Failed);
    assert_eq!(rt; link.finish().contents(), [1u8, 2, 3, 5, 6].as_slice());
    Ok(())
}

#[test]
fn links_come_one_by_one_to_a_memory_acceptor_that_listens(rt: HostRuntime) -> Result<(), Fail> {
    let alloc = rt.alloc();
    let none = FailingCalls::none(alloc);
    let link = MemLink::new(
        alloc,
        &[[7u8].as_slice()],
        0,
        none,
        FailingCalls::none(alloc),
    )?;
    let plan = FailingCalls::at(vec![in alloc; 1u64, 3]?);
    let mut acceptor = MemAcceptor::new(alloc, vec![in alloc; link]?, plan);
    assert!(rt; matches!(acceptor.next(&rt), Next::Idle));
    assert_eq!(rt; acceptor.bind(&rt, "s"), Bound::Failed);
    assert_eq!(rt; acceptor.bind(&rt, "s"), Bound::Up);
    assert!(rt; matches!(acceptor.next(&rt), Next::Failed));
    assert!(rt; matches!(acceptor.next(&rt), Next::Came(_)));
    assert!(rt; matches!(acceptor.next(&rt), Next::Idle));
    Ok(())
}
