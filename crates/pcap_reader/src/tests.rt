use crate::{Break, ReadError, Reader};
use rss_base::{Link, MemorySource};
use std::alloc::Global;
use std::test::Fail;

const HEADER: [u8; 24] = [
    0xd4, 0xc3, 0xb2, 0xa1, 2, 0, 4, 0, 0, 0, 0, 0, 0, 0, 0, 0, 0, 0, 4, 0, 1, 0, 0, 0,
];

// A record of 256 bytes.
fn push_record(capture: &mut Vec<u8>) -> Result<(), Fail> {
    capture.extend_from_slice(&[1, 0, 0, 0, 2, 0, 0, 0, 240, 0, 0, 0, 250, 0, 0, 0])?;
    capture.extend_from_slice(&[7; 240])?;
    Ok(())
}

// Whether this many records come, and then the end.
fn has_records(alloc: Global, mut source: MemorySource, records: u32) -> Result<bool, ReadError> {
    let mut reader = Reader::start(alloc, &mut source)?;
    for _ in 0..10_000 {
        if reader.given() > u64::from(records) {
            return Ok(false);
        }
        if reader.next(&mut source)?.is_none() {
            break;
        }
    }
    Ok(reader.given() == u64::from(records))
}

// A capture of a mebibyte is read in 32 calls: the 33rd would fail.
#[test]
fn a_large_capture_is_read_in_large_pieces(rt: HostRuntime) -> Result<(), Fail> {
    let mut capture = HEADER.to_vec(rt.alloc())?;
    for _ in 0..4096 {
        push_record(&mut capture)?;
    }
    let source = MemorySource::new(capture, Vec::new(rt.alloc()), vec![in rt.alloc(); 33]?);
    assert!(rt; has_records(rt.alloc(), source, 4096) == Ok(true));
    Ok(())
}

#[test]
fn a_record_tells_its_time_and_lengths(rt: HostRuntime) -> Result<(), Fail> {
    let mut capture = HEADER.to_vec(rt.alloc())?;
    push_record(&mut capture)?;
    let mut source = MemorySource::new(capture, vec![in rt.alloc(); 1]?, Vec::new(rt.alloc()));
    let mut reader = Reader::start(rt.alloc(), &mut source)?;
    match reader.next(&mut source)? {
        Some(record) => {
            assert_eq!(rt;
                (record.number, record.nanos, record.original),
                (0, 1_000_002_000, 250)
            );
            assert_eq!(rt; record.bytes.len(), 240);
        }
        None => assert!(rt; false, "there is a record"),
    }
    Ok(())
}

// The reader and its records tell the link of the header.
#[test]
fn a_capture_tells_its_link(rt: HostRuntime) -> Result<(), Fail> {
    for (value, link) in [(1, Link::Ethernet), (101, Link::Raw)] {
        let mut capture = HEADER.to_vec(rt.alloc())?;
        push_record(&mut capture)?;
        if let Some(byte) = capture.get_mut(20) {
            *byte = value;
        }
        let mut source = MemorySource::new(capture, Vec::new(rt.alloc()), Vec::new(rt.alloc()));
        let mut reader = Reader::start(rt.alloc(), &mut source)?;
        assert_eq!(rt; reader.link(), link);
        match reader.next(&mut source)? {
            Some(record) => assert_eq!(rt; record.link, link),
            None => assert!(rt; false, "there is a record"),
        }
    }
    Ok(())
}

// The same error again, with no read between: the third read would fail.
#[test]
fn an_error_is_answered_again(rt: HostRuntime) -> Result<(), Fail> {
    let mut capture = HEADER.to_vec(rt.alloc())?;
    capture.push(0)?;
    let mut source = MemorySource::new(capture, Vec::new(rt.alloc()), vec![in rt.alloc(); 3]?);
    let mut reader = Reader::start(rt.alloc(), &mut source)?;
    for _ in 0..3 {
        assert_eq!(rt; reader.given(), 0);
        match reader.next(&mut source) {
            Ok(_) => assert!(rt; false, "the record is cut"),
            Err(error) => {
                assert!(rt; error == ReadError::Broken(Break::ShortRecord { at: 0, have: 1 }));
            }
        }
    }
    Ok(())
}
