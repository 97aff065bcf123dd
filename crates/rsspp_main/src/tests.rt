// Whole runs over memory ends: worked captures, and calls that fail.
mod captures;
mod demos;
mod faults;
mod flows;
mod forms;
mod gates;
mod hash_keys;
mod hashes;
mod ipv6;
mod journals;
mod lots;
mod meeting;
mod named;
mod pcapng;
mod plans;
mod process;
mod rows;
mod schedules;
mod threads;
mod words;
mod works;

use crate::rsspp;
use bucket_table::{FLOW_HASH_KEY_BYTES, FlowHashKey};
use packet_fields::NoName;
use rss_base::{Gate, MemorySink, MemorySource, OpenGate};
use std::alloc::Global;
use std::sync::Wait;
use std::test::Fail;
use std::thread::Threads;

/// What a run answered and wrote.
#[derive(Drop)]
pub struct Ran {
    pub status: u8,
    /// Whether the trace of a run in threads came with it.
    pub is_told: bool,
    pub out: Vec<u8>,
    pub notes: Vec<u8>,
}

/// How the ends of a run are to cut and to fail; a number of 0 fails no call.
#[derive(Clone, Copy)]
pub struct Ends {
    pub cut: u32,
    pub failing_read: u64,
    pub failing_write: u64,
    pub failing_note: u64,
}

/// Ends that cut nothing and never fail.
pub const WHOLE: Ends = Ends {
    cut: u32::MAX,
    failing_read: 0,
    failing_write: 0,
    failing_note: 0,
};

/// Numbers to hash by, which everybody knows.
pub fn hashing(byte: u8) -> FlowHashKey {
    FlowHashKey::from_bytes(&[byte; FLOW_HASH_KEY_BYTES])
}

// The words as texts of their own.
fn owned(alloc: Global, words: &[&str]) -> Result<Vec<String>, Fail> {
    let mut owned = Vec::new(alloc);
    for word in words {
        owned.push(String::from_str(alloc, word)?)?;
    }
    Ok(owned)
}

/// Runs the program with these words over a capture.
pub fn run<R: Threads + Wait + Sync>(
    rt: &R,
    alloc: Global,
    words: &[&str],
    capture: &[u8],
    ends: Ends,
) -> Result<Ran, Fail> {
    run_with(
        rt,
        alloc,
        &owned(alloc, words)?,
        Some(hashing(7)),
        capture,
        ends,
        &OpenGate,
    )
}

/// Runs the program with these words over a capture, with these numbers to hash by, or none.
pub fn run_hashing<R: Threads + Wait + Sync>(
    rt: &R,
    alloc: Global,
    words: &[&str],
    hashing: Option<FlowHashKey>,
    capture: &[u8],
) -> Result<Ran, Fail> {
    run_with(
        rt,
        alloc,
        &owned(alloc, words)?,
        hashing,
        capture,
        WHOLE,
        &OpenGate,
    )
}

/// Runs the program on one thread under a number, with these words besides, over a capture.
pub fn run_under<R: Threads + Wait + Sync>(
    rt: &R,
    alloc: Global,
    number: u32,
    words: &[&str],
    capture: &[u8],
) -> Result<Ran, Fail> {
    let mut all = owned(alloc, words)?;
    all.push(String::from_str(alloc, "--serial")?)?;
    all.push(format!(in alloc; "{number}")?)?;
    run_with(rt, alloc, &all, Some(hashing(7)), capture, WHOLE, &OpenGate)
}

/// Runs the program over a capture, with a gate before each packet of a worker.
pub fn run_at<G: Gate + Sync, R: Threads + Wait + Sync>(
    rt: &R,
    alloc: Global,
    words: &[&str],
    capture: &[u8],
    gate: &G,
) -> Result<Ran, Fail> {
    run_with(
        rt,
        alloc,
        &owned(alloc, words)?,
        Some(hashing(7)),
        capture,
        WHOLE,
        gate,
    )
}

fn run_with<G: Gate + Sync, R: Threads + Wait + Sync>(
    rt: &R,
    alloc: Global,
    words: &[String],
    hashing: Option<FlowHashKey>,
    capture: &[u8],
    ends: Ends,
    gate: &G,
) -> Result<Ran, Fail> {
    let mut source = MemorySource::new(
        capture.to_vec(alloc)?,
        vec![in alloc; ends.cut]?,
        vec![in alloc; ends.failing_read]?,
    );
    let mut out = MemorySink::new(alloc, 1_000_000, vec![in alloc; ends.failing_write]?)?;
    let mut notes = MemorySink::new(alloc, 1_000, vec![in alloc; ends.failing_note]?)?;
    let answer = rsspp::<NoName, _, _, _, _, _>(
        rt,
        alloc,
        words,
        hashing,
        &mut source,
        &mut out,
        &mut notes,
        gate,
    );
    Ok(Ran {
        status: answer.status,
        is_told: answer.trace.is_some(),
        out: out.bytes().to_vec(alloc)?,
        notes: notes.bytes().to_vec(alloc)?,
    })
}

/// Whether a run with these words has this status, output and note.
pub fn answers<R: Threads + Wait + Sync>(
    rt: &R,
    alloc: Global,
    words: &[&str],
    input: &[u8],
    status: u8,
    out: &str,
    notes: &str,
) -> Result<bool, Fail> {
    let ran = run(rt, alloc, words, input, WHOLE)?;
    Ok(
        ran.status == status
            && ran.out.as_slice() == out.as_bytes()
            && ran.notes.as_slice() == notes.as_bytes(),
    )
}

/// Whether a report of the capture has this status, output and note, in cuts of 1 to 7 bytes and
/// uncut.
pub fn reports<R: Threads + Wait + Sync>(
    rt: &R,
    alloc: Global,
    capture: &[u8],
    status: u8,
    out: &str,
    notes: &str,
) -> Result<bool, Fail> {
    for cut in [1, 2, 3, 4, 5, 6, 7, u32::MAX] {
        let ran = run(rt, alloc, &["report"], capture, Ends { cut, ..WHOLE })?;
        if ran.status != status
            || ran.out.as_slice() != out.as_bytes()
            || ran.notes.as_slice() != notes.as_bytes()
        {
            return Ok(false);
        }
    }
    Ok(true)
}
