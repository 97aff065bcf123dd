// Runs whose reports are the same under every number of a schedule.
use crate::tests::captures::{Frame, SEGMENT, capture_of};
use crate::tests::{WHOLE, hashing, run, run_under};
use flow_report::report;
use flow_work::{Count, FlowWork, MOST_PACKETS};
use rss_base::{MemorySink, MemorySource};
use rsspp_run::one_thread;
use std::alloc::Global;
use std::sync::Wait;
use std::test::Fail;
use std::thread::Threads;

// Whether runs with these words under the numbers below this one print this text of a capture.
fn agree<R: Threads + Wait + Sync>(
    rt: &R,
    alloc: Global,
    words: &[&str],
    numbers: u32,
    capture: &[u8],
    text: &[u8],
) -> Result<bool, Fail> {
    for number in 0..numbers {
        let ran = run_under(rt, alloc, number, words, capture)?;
        if ran.status != 0 || ran.out.as_slice() != text {
            return Ok(false);
        }
    }
    Ok(true)
}

#[test]
fn order_folds_alike_under_every_schedule(rt: HostRuntime) -> Result<(), Fail> {
    let capture = capture_of(
        rt.alloc(),
        &[(&SEGMENT, 60), (&SEGMENT, 70), (&SEGMENT, 80)],
    )?;
    let words = [
        "report",
        "--work",
        "order",
        "--cores",
        "2",
        "--buckets",
        "1",
        "--moves",
        "1:0:1,2:0:0",
    ];
    // (60 * 31 + 70) * 31 + 80
    let text = b"tcp 66.9.149.187:2794 > 161.142.100.80:1766 order 59910\n\
        total flows 1 packets 3 bytes 210\n";
    assert!(rt; agree(&rt, rt.alloc(), &words, 100, &capture, text)?);
    Ok(())
}

/// The report of the capture's packets in one table, worked without a queue.
pub fn one_thread_report<W: FlowWork>(
    alloc: Global,
    work: &W,
    capture: &[u8],
) -> Result<Vec<u8>, Fail> {
    let mut source = MemorySource::new(capture.to_vec(alloc)?, Vec::new(alloc), Vec::new(alloc));
    let table = one_thread(alloc, MOST_PACKETS, &hashing(7), work, &mut source)?;
    // A count of 32 bits, as the report asks.
    let _done = table.done();
    let mut out = MemorySink::new(alloc, 1_000_000, Vec::new(alloc))?;
    report(alloc, work, &[table], &mut out)?;
    Ok(out.bytes().to_vec(alloc)?)
}

#[test]
fn eight_cores_with_two_cells_report_as_one_thread(rt: HostRuntime) -> Result<(), Fail> {
    let made = run(&rt, rt.alloc(), &["make", "500", "1"], &[], WHOLE)?;
    let text = one_thread_report(rt.alloc(), &Count, &made.out)?;
    let words = ["report", "--cores", "8", "--pool", "2"];
    assert!(rt; agree(&rt, rt.alloc(), &words, 10, &made.out, &text)?);
    Ok(())
}

/// So many packets of one flow.
pub fn of_one_flow(alloc: Global, count: usize) -> Result<Vec<u8>, Fail> {
    let mut frames: Vec<Frame<'_>> = Vec::new(alloc);
    for _ in 0..count {
        frames.push((&SEGMENT, 60))?;
    }
    capture_of(alloc, &frames)
}

/// The moves of the only bucket to and fro, one before each packet but the first.
pub fn moves_to_and_fro(alloc: Global, count: u32) -> Result<String, Fail> {
    let mut moves = String::from_str(alloc, "1:0:1")?;
    for at in 2..count {
        let order = format!(in alloc; ",{at}:0:{}", at % 2)?;
        moves.push_str(order.as_str())?;
    }
    Ok(moves)
}

/// Where the last of a bucket's custodies ends, if each begins where the one before it ended.
pub fn joined_to(journal: &str) -> Option<u32> {
    let mut place = 0;
    for line in journal.lines() {
        if let Some(custody) = line.strip_prefix("custody 0 ") {
            let mut numbers = custody.split(' ').skip(1);
            let from: u32 = numbers.next()?.parse().ok()?;
            if from != place {
                return None;
            }
            place = numbers.next()?.parse().ok()?;
        }
    }
    Some(place)
}

#[test]
fn a_bucket_that_is_moved_at_each_packet_stays_whole(rt: HostRuntime) -> Result<(), Fail> {
    let capture = of_one_flow(rt.alloc(), 1_000)?;
    let moves = moves_to_and_fro(rt.alloc(), 1_000)?;
    let text = "tcp 66.9.149.187:2794 > 161.142.100.80:1766 packets 1000 bytes 60000\n\
        total flows 1 packets 1000 bytes 60000\n";
    for number in 0..10 {
        let words = [
            "report",
            "--work",
            "count",
            "--cores",
            "2",
            "--buckets",
            "1",
            "--pool",
            "2",
            "--moves",
            moves.as_str(),
            "--journal",
        ];
        let ran = run_under(&rt, rt.alloc(), number, &words, &capture)?;
        let out = str::from_utf8(&ran.out)?;
        assert!(rt; ran.status == 0 && out.starts_with(text));
        assert_eq!(rt; joined_to(out), Some(1_000));
    }
    Ok(())
}

#[test]
fn rounds_leave_a_large_flow_whole(rt: HostRuntime) -> Result<(), Fail> {
    let capture = of_one_flow(rt.alloc(), 20_000)?;
    let words = ["report", "--cores", "4", "--round", "100"];
    let text = b"tcp 66.9.149.187:2794 > 161.142.100.80:1766 packets 20000 bytes 1200000\n\
        total flows 1 packets 20000 bytes 1200000\n";
    assert!(rt; agree(&rt, rt.alloc(), &words, 10, &capture, text)?);
    Ok(())
}
