use crate::tests::captures::{Frame, HEADER, SEGMENT, capture_of};
use crate::tests::{Ends, WHOLE, run};
use std::test::Fail;

const TWO: [Frame<'static>; 2] = [(&SEGMENT, 60), (&[], 42)];

#[test]
fn a_failed_read_is_told_wherever_it_comes(rt: HostRuntime) -> Result<(), Fail> {
    let capture = capture_of(rt.alloc(), &TWO)?;
    let reads = capture.len() as u64 + 1;
    for failing_read in 1..=reads {
        let ends = Ends {
            cut: 1,
            failing_read,
            ..WHOLE
        };
        let ran = run(&rt, rt.alloc(), &["report"], &capture, ends)?;
        assert_eq!(rt; ran.status, 4);
        assert!(rt; ran.out.is_empty());
        assert!(rt; ran.notes.as_slice() == b"rsspp: read fault\n".as_slice());
    }
    let ends = Ends {
        cut: 1,
        failing_read: reads + 1,
        ..WHOLE
    };
    assert_eq!(rt;
        run(&rt, rt.alloc(), &["report"], &capture, ends)?.status,
        0
    );
    Ok(())
}

#[test]
fn a_failed_write_leaves_the_lines_before_it(rt: HostRuntime) -> Result<(), Fail> {
    let capture = capture_of(rt.alloc(), &TWO)?;
    let whole = run(&rt, rt.alloc(), &["report"], &capture, WHOLE)?;
    for (failing_write, stand) in [(1, 0), (2, 63), (3, 88)] {
        let ends = Ends {
            failing_write,
            ..WHOLE
        };
        let ran = run(&rt, rt.alloc(), &["report"], &capture, ends)?;
        assert_eq!(rt; ran.status, 5);
        assert_eq!(rt; ran.out.len(), stand);
        assert!(rt; whole.out.starts_with(&ran.out));
        assert!(rt; ran.notes.as_slice() == b"rsspp: write fault\n".as_slice());
    }
    Ok(())
}

// The front of a text that ends with its line number `count`.
fn first_lines(text: &[u8], count: usize) -> &[u8] {
    let mut left = count;
    for (at, byte) in text.iter().enumerate() {
        if *byte == b'\n' {
            left = left.saturating_sub(1);
            if left == 0 {
                return &text[..=at];
            }
        }
    }
    text
}

#[test]
fn faults_in_made_traffic_are_told(rt: HostRuntime) -> Result<(), Fail> {
    let made = run(&rt, rt.alloc(), &["make", "500", "1"], &[], WHOLE)?;
    let reading = Ends {
        cut: 7,
        failing_read: 100,
        ..WHOLE
    };
    let unread = run(&rt, rt.alloc(), &["report"], &made.out, reading)?;
    assert!(rt; unread.status == 4 && unread.out.is_empty());
    let whole = run(&rt, rt.alloc(), &["report"], &made.out, WHOLE)?;
    let writing = Ends {
        failing_write: 5,
        ..WHOLE
    };
    let unwritten = run(&rt, rt.alloc(), &["report"], &made.out, writing)?;
    assert_eq!(rt; unwritten.status, 5);
    assert!(rt; unwritten.out.as_slice() == first_lines(&whole.out, 4));
    Ok(())
}

// A note that can't be written changes no status.
#[test]
fn a_failed_note_is_passed_over(rt: HostRuntime) -> Result<(), Fail> {
    let mut capture = HEADER.to_vec(rt.alloc())?;
    capture[20] = 113;
    let ends = Ends {
        failing_note: 1,
        ..WHOLE
    };
    let ran = run(&rt, rt.alloc(), &["report"], &capture, ends)?;
    assert!(rt; ran.status == 3 && ran.notes.is_empty());
    Ok(())
}
