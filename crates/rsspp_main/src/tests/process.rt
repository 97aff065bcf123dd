// What the process adds to a run.
use crate::{TopFault, WordFault, end_with, fault_of_start, status_behind};
use rss_base::{Failed, MemorySink};
use std::io::ErrorKind;
use std::test::Fail;

#[test]
fn words_that_are_not_utf8_are_refused(rt: HostRuntime) -> Result<(), Fail> {
    let words = TopFault::Words(WordFault::Words);
    assert!(rt; fault_of_start(ErrorKind::InvalidData) == words);
    assert!(rt; fault_of_start(ErrorKind::OutOfMemory) == TopFault::NoMemory);
    for (fault, status, line) in [
        (words, 2, "rsspp: words refused\n"),
        (TopFault::NoMemory, 6, "rsspp: want of memory\n"),
    ] {
        let mut notes = MemorySink::new(rt.alloc(), 100, Vec::new(rt.alloc()))?;
        assert_eq!(rt; end_with(&fault, &mut notes), status);
        assert!(rt; notes.bytes() == line.as_bytes());
    }
    Ok(())
}

// A late failure is a write fault of a run that was done, and changes no other status.
#[test]
fn output_that_fails_behind_the_run_is_told(rt: HostRuntime) -> Result<(), Fail> {
    for (status, handed, ends, line) in [
        (0, Ok(()), 0, ""),
        (0, Err(Failed), 5, "rsspp: write fault\n"),
        (3, Ok(()), 3, ""),
        (3, Err(Failed), 3, ""),
    ] {
        let mut notes = MemorySink::new(rt.alloc(), 100, Vec::new(rt.alloc()))?;
        assert_eq!(rt; status_behind(status, handed, &mut notes), ends);
        assert!(rt; notes.bytes() == line.as_bytes());
    }
    Ok(())
}
