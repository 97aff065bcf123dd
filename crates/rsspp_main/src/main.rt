//! `rsspp`: the flows of a packet capture, exactly.
//!
//! [`rsspp`] is the whole program over any source and any sinks, and its contract says what each
//! status means for the bytes that were read and written. `main` makes the real ends and calls it.
//!
//! Read `specs/Status.antt`, `specs/Run.antt` and `specs/Answers.antt`, then `fault.rt` and
//! `top.rt`; then a mode with its definition: `serial.rt` (Reports), `threaded.rt` (Threads),
//! `demo.rt` (Demo), `listing.rt` (Listing), `modes.rt` (Plan). `input.rt` (Input) and `laws.rt`
//! (Packets) tell of pcapng.
#![tactic(auto)]

mod demo;
mod fault;
mod input;
mod laws;
mod listing;
mod modes;
mod named;
mod notes;
mod process;
mod serial;
#[cfg(test)]
mod tests;
mod threaded;
mod top;
mod trace;

use bucket_table::{FLOW_HASH_KEY_BYTES, FlowHashKey};
pub use command_words::{Command, Mode, OptionName, WordFault, read_words};
pub use demo::serial_demo;
pub use fault::TopFault;
pub use laws::pcapng_inputs_are_captures;
pub use modes::{hash_listing, make_capture, plan};
pub use named::{OnePacket, report_one_packet};
pub use notes::fault_line;
use packet_fields::NoName;
pub use process::{end_with, fault_of_start, status_behind};
use rss_base::{OpenGate, StdSink, StdSource};
pub use serial::serial_report;
use std::env;
use std::io::{self, BufWriter};
use std::process::ExitCode;
use std::random::RandomSource;
use std::sync::Wait;
use std::thread::Threads;
pub use threaded::threaded_report;
pub use top::rsspp;
pub use trace::{Answer, Trace};

// The words after the program's name.
fn words_of(rt: &HostRuntime) -> io::Result<Vec<String>> {
    let mut words = Vec::new(rt.alloc());
    for word in env::args(rt)?.skip(1) {
        words.push(word)?;
    }
    Ok(words)
}

// The numbers that flow tables hash by, drawn anew, if they can be.
fn drawn(rt: &impl RandomSource) -> Option<FlowHashKey> {
    let mut bytes = [0; FLOW_HASH_KEY_BYTES];
    match rt.fill_bytes(&mut bytes) {
        Ok(()) => Some(FlowHashKey::from_bytes(&bytes)),
        Err(_) => None,
    }
}

// The status of a run over standard input, output and error. The runtime is the host's, which may
// start threads. Output is written in large pieces,
// so the last of them may fail after the run.
fn status<R: Threads + Wait + Sync>(host: &HostRuntime, rt: &R) -> io::Result<u8> {
    let words = words_of(host)?;
    let mut source = StdSource::new(host.stdin());
    let mut out = StdSink::new(BufWriter::new(host.alloc(), host.stdout())?);
    let mut notes = StdSink::new(host.stderr());
    let alloc = host.alloc();
    let answer = rsspp::<NoName, _, _, _, _, _>(
        rt,
        alloc,
        &words,
        drawn(host),
        &mut source,
        &mut out,
        &mut notes,
        &OpenGate,
    );
    let handed = out.flush();
    Ok(status_behind(answer.status, handed, &mut notes))
}

fn main(rt: HostRuntime) -> ExitCode {
    match status(&rt, &rt) {
        Ok(status) => ExitCode::from(status),
        Err(error) => {
            let fault = fault_of_start(error.kind());
            ExitCode::from(end_with(&fault, &mut StdSink::new(rt.stderr())))
        }
    }
}
