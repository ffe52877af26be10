//! Lines that are read from a source in memory.

use kak_ports::{FailingCalls, MemSource};
use line_reading::{LineReader, NextLine};
use std::test::Fail;

#[test]
fn lines_come_one_by_one_however_the_pieces_fall(rt: HostRuntime) -> Result<(), Fail> {
    let alloc = rt.alloc();
    let plan = FailingCalls::at(vec![in alloc; 1u64]?);
    let mut source = MemSource::new(vec![in alloc; 1u8, 2, 10, 10, 3, 4]?, 4, plan);
    let mut reader = LineReader::new(alloc);
    assert_eq!(rt; reader.next(&mut source)?, NextLine::Line);
    assert_eq!(rt; reader.line(), [1u8, 2].as_slice());
    assert_eq!(rt; reader.next(&mut source)?, NextLine::Line);
    assert_eq!(rt; reader.line().len(), 0);
    assert_eq!(rt; reader.next(&mut source)?, NextLine::ReadFault);
    assert_eq!(rt; reader.next(&mut source)?, NextLine::Last);
    assert_eq!(rt; reader.line(), [3u8, 4].as_slice());
    assert_eq!(rt; reader.next(&mut source)?, NextLine::Ended);
    Ok(())
}

#[test]
fn a_line_is_put_together_from_pieces_of_one_byte(rt: HostRuntime) -> Result<(), Fail> {
    let alloc = rt.alloc();
    let plan = FailingCalls::none(alloc);
    let mut source = MemSource::new(vec![in alloc; 7u8, 8, 9, 10]?, 1, plan);
    let mut reader = LineReader::new(alloc);
    assert_eq!(rt; reader.next(&mut source)?, NextLine::Line);
    assert_eq!(rt; reader.line(), [7u8, 8, 9].as_slice());
    assert_eq!(rt; reader.next(&mut source)?, NextLine::Ended);
    Ok(())
}
