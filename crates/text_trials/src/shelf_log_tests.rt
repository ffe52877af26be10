//! The log of shifts.

use change_list::MAX_STAMP;
use kak_text::{Coord, Shift};
use list_shelf::SliceLog;
use std::test::Fail;

const fn coord(line: u32, column: u32) -> Coord {
    Coord { line, column }
}

// The insertion of one character at the begin of a line.
const fn typed(line: u32) -> Shift {
    Shift {
        insert: true,
        begin: coord(line, 0),
        end: coord(line, 1),
        last: coord(line, 1),
    }
}

#[test]
fn a_log_gives_each_shift_by_its_stamp(rt: HostRuntime) -> Result<(), Fail> {
    let alloc = rt.alloc();
    let mut log = SliceLog::new(alloc);
    for n in 0..5 {
        assert_eq!(rt; log.stamp(), n);
        assert!(rt; log.stamp() < MAX_STAMP);
        log.push(typed(n as u32))?;
    }
    assert!(rt; log.first() <= 2);
    assert!(rt; 2 <= log.stamp());
    log.trim(2);
    assert_eq!(rt; log.first(), 2);
    assert_eq!(rt; log.stamp(), 5);
    for n in 2..5 {
        assert!(rt; log.first() <= n);
        assert!(rt; n <= log.stamp());
        let rest = log.since(n);
        assert_eq!(rt; rest.len(), 5 - n as usize);
        assert!(rt; !rest.is_empty());
        assert_eq!(rt; rest[0], typed(n as u32));
    }
    log.restart();
    assert_eq!(rt; log.first(), 0);
    assert_eq!(rt; log.stamp(), 0);
    Ok(())
}

#[test]
fn a_log_takes_as_many_shifts_as_it_may(rt: HostRuntime) -> Result<(), Fail> {
    let alloc = rt.alloc();
    let mut log = SliceLog::new(alloc);
    for n in 0..MAX_STAMP {
        assert!(rt; log.stamp() < MAX_STAMP);
        log.push(typed(n as u32))?;
    }
    assert_eq!(rt; log.stamp(), 100_000);
    assert!(rt; log.first() <= 99_999);
    assert!(rt; 99_999 <= log.stamp());
    let last = log.since(99_999);
    assert_eq!(rt; last.len(), 1);
    assert!(rt; !last.is_empty());
    assert_eq!(rt; last[0], typed(99_999));
    Ok(())
}
