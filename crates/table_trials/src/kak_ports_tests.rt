//! Sources and sinks in memory and over std, and small lists.

use byte_texts::{Octets, Utf8Text, Words};
use kak_ports::{FailingCalls, MemSink, MemSource, Put, ReadSource, Sink, Source, Took, WriteSink};
use std::test::Fail;

#[test]
fn a_memory_source_gives_its_bytes_in_pieces_and_fails_where_it_is_planned(
    rt: HostRuntime,
) -> Result<(), Fail> {
    let alloc = rt.alloc();
    let plan = FailingCalls::at(vec![in alloc; 1u64]?);
    let mut source = MemSource::new(vec![in alloc; 1u8, 2, 3]?, 2, plan);
    let mut into = [0u8; 8];
    assert_eq!(rt; source.take(&mut into), Took::Got(2));
    assert_eq!(rt; into[0], 1);
    assert_eq!(rt; into[1], 2);
    assert_eq!(rt; source.take(&mut into), Took::Failed);
    assert_eq!(rt; source.take(&mut into), Took::Got(1));
    assert_eq!(rt; into[0], 3);
    assert_eq!(rt; source.take(&mut into), Took::End);
    Ok(())
}

#[test]
fn a_memory_sink_keeps_what_fits_and_fails_where_it_is_planned(
    rt: HostRuntime,
) -> Result<(), Fail> {
    let alloc = rt.alloc();
    let plan = FailingCalls::at(vec![in alloc; 1u64]?);
    let mut sink = MemSink::new(alloc, 6, plan)?;
    assert_eq!(rt; sink.put(&[1, 2]), Put::Done);
    assert_eq!(rt; sink.put(&[3, 4]), Put::Failed);
    assert_eq!(rt; sink.contents(), [1u8, 2, 3].as_slice());
    assert_eq!(rt; sink.put(&[5, 6]), Put::Done);
    assert_eq!(rt; sink.put(&[7, 8]), Put::Failed);
    assert_eq!(rt; sink.contents(), [1u8, 2, 3, 5, 6, 7].as_slice());
    Ok(())
}

#[test]
fn ports_over_std_give_and_add_the_bytes(rt: HostRuntime) -> Result<(), Fail> {
    let alloc = rt.alloc();
    let bytes: &[u8] = &[1, 2, 3];
    let mut source = ReadSource::new(bytes);
    let mut into = [0u8; 2];
    assert_eq!(rt; source.take(&mut into), Took::Got(2));
    assert_eq!(rt; source.take(&mut into), Took::Got(1));
    assert_eq!(rt; source.take(&mut into), Took::End);
    let mut sink = WriteSink::new(Vec::<u8>::new(alloc));
    assert_eq!(rt; sink.put(&[9, 8]), Put::Done);
    Ok(())
}

#[test]
fn small_lists_keep_what_they_are_given(rt: HostRuntime) -> Result<(), Fail> {
    let alloc = rt.alloc();
    let octets = Octets::of_vec(vec![in alloc; 4u8, 5]?);
    assert_eq!(rt; octets.len(), 2);
    assert_eq!(rt; octets.into_vec().as_slice(), [4u8, 5].as_slice());
    let mut words = Words::new(alloc);
    words.push(String::from_str(alloc, "one")?)?;
    words.push(String::from_str(alloc, "two")?)?;
    assert_eq!(rt; words.len(), 2);
    if words.len() == 2 {
        assert_eq!(rt; words.get(1), "two");
    }
    let again = Words::of_vec(words.copy(alloc)?.into_vec());
    assert_eq!(rt; again.len(), 2);
    let text = Utf8Text::of_string(Utf8Text::from_str(alloc, "é")?.into_string());
    assert_eq!(rt; text.as_str(), "é");
    Ok(())
}
