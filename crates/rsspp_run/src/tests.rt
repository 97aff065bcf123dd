// Runs over a capture of six packets of one flow, of which the only bucket is handed over twice.
ghost use Rattle.std.specs.Prelude.{◌≤◌, IfOk};
ghost use Rattle.dispatch_loop.specs.Accepted.{IsAccepted};
ghost use Rattle.dispatch_loop.specs.declared.limits.TheConstants.{LEAST_PACKETS};

use crate::{RunEnd, RunFault, one_thread, run_serial};
use balancer::PolicyName;
use bucket_table::{BucketTable, Custody, FLOW_HASH_KEY_BYTES, FlowHashKey};
use dispatch_loop::Options;
use flow_work::{OrderFold, WorkName};
use indirection::{Entry, MoveOrder, Outcome, Table};
use packet_fields::NoName;
use pcap_reader::Break;
use rss_base::MemorySource;
use std::alloc::Global;
use std::test::Fail;
use toeplitz::DEFAULT_KEY;

const HEADER: [u8; 24] = [
    0xd4, 0xc3, 0xb2, 0xa1, 2, 0, 4, 0, 0, 0, 0, 0, 0, 0, 0, 0, 0, 0, 4, 0, 1, 0, 0, 0,
];

// A TCP segment from 66.9.149.187:2794 to 161.142.100.80:1766.
const SEGMENT: [u8; 54] = [
    0x02, 0, 0, 0, 0, 1, 0x02, 0, 0, 0, 0, 2, 0x08, 0x00, // Ethernet
    0x45, 0, 0, 0x2e, 0, 1, 0, 0, 0x40, 6, 0, 0, 66, 9, 149, 187, 161, 142, 100, 80, // IPv4
    0x0a, 0xea, 0x06, 0xe6, 0, 0, 0, 0, 0, 0, 0, 0, 0x50, 2, 0xff, 0xff, 0, 0, 0, 0, // TCP
];

fn capture(alloc: Global) -> Result<Vec<u8>, Fail> {
    let mut bytes = HEADER.to_vec(alloc)?;
    for original in [60, 70, 80, 60, 70, 80] {
        bytes.extend_from_slice(&[0, 0, 0, 0, 0, 0, 0, 0, 54, 0, 0, 0, original, 0, 0, 0])?;
        bytes.extend_from_slice(&SEGMENT)?;
    }
    Ok(bytes)
}

// Two cores and one bucket of core 0, which goes to core 1 behind two packets, and back behind five.
fn options(alloc: Global, packets: u32) -> Result<Options, Fail>
    requires { LEAST_PACKETS ≤ packets }
    ensures { IfOk result IsAccepted }
{
    let start = Table::new(alloc, 2, 1)?;
    let there = MoveOrder {
        at: 2,
        bucket: 0,
        to: 1,
    };
    let back = MoveOrder {
        at: 5,
        bucket: 0,
        to: 0,
    };
    Ok(Options {
        key: DEFAULT_KEY,
        cores: 2,
        start,
        work: WorkName::OrderFold,
        moves: vec![in alloc; there, back]?,
        round: 1_000,
        limit: 4,
        policy: PolicyName::Greedy,
        pool: 1_024,
        packets,
    })
}

// Numbers to hash by, which everybody knows.
fn hashing() -> FlowHashKey {
    FlowHashKey::from_bytes(&[7; FLOW_HASH_KEY_BYTES])
}

// What a run over this capture came to, under number 0.
fn run(
    alloc: Global,
    bytes: Vec<u8>,
    fail_at: Vec<u64>,
    packets: u32,
) -> Result<Result<RunEnd<OrderFold>, RunFault>, Fail>
    requires { LEAST_PACKETS ≤ packets }
{
    let mut source = MemorySource::new(bytes, Vec::new(alloc), fail_at);
    Ok(run_serial::<NoName, _, _>(
        alloc,
        &options(alloc, packets)?,
        &hashing(),
        &OrderFold,
        &mut source,
        0,
    ))
}

fn had(core: u8, from: u32, to: u32) -> Custody {
    Custody {
        bucket: 0,
        core,
        from,
        to,
    }
}

fn moved(entry: &Entry, at: u32, to: u8) -> bool {
    match entry {
        Entry::Round(_) => false,
        Entry::Order(entry) => {
            entry.order == MoveOrder { at, bucket: 0, to }
                && entry.outcome == Outcome::Moved { tail: at }
        }
    }
}

// What was folded of the only flow.
fn folded(table: &BucketTable<OrderFold>) -> Option<u32> {
    if table.flow_count() == 1 {
        Some(*table.flow(0).1)
    } else {
        None
    }
}

#[test]
fn two_handovers_keep_the_order(rt: HostRuntime) -> Result<(), Fail> {
    let alloc = rt.alloc();
    let end = run(alloc, capture(alloc)?, Vec::new(alloc), 6)?.expect(&rt, "a run");
    let custody = [had(0, 0, 2), had(1, 2, 5), had(0, 5, 6)];
    assert!(rt; end.custody.as_slice() == custody.as_slice());
    assert!(rt; end.worked.as_slice() == [3, 3].as_slice());
    let entries = end.journal.entries();
    assert!(rt; entries.len() == 2 && moved(&entries[0], 2, 1) && moved(&entries[1], 5, 0));
    assert!(rt; end.tables.len() == 1 && folded(&end.tables[0]) == Some(1_784_838_720));
    Ok(())
}

#[test]
fn one_thread_folds_alike(rt: HostRuntime) -> Result<(), Fail> {
    let alloc = rt.alloc();
    let mut source = MemorySource::new(capture(alloc)?, Vec::new(alloc), Vec::new(alloc));
    let table = one_thread(alloc, 6, &hashing(), &OrderFold, &mut source).expect(&rt, "a table");
    assert!(rt; folded(&table) == Some(1_784_838_720));
    Ok(())
}

#[test]
fn a_refused_run_tells_why(rt: HostRuntime) -> Result<(), Fail> {
    let alloc = rt.alloc();
    let whole = capture(alloc)?;
    let cut = whole[..whole.len().saturating_sub(1)].to_vec(alloc)?;
    let broken = run(alloc, cut, Vec::new(alloc), 6)?;
    assert!(rt;
        matches!(
            broken,
            Err(RunFault::Capture(Break::ShortRecord { at: 5, have: 69 }))
        )
    );
    let many = run(alloc, capture(alloc)?, Vec::new(alloc), 5)?;
    assert!(rt; matches!(many, Err(RunFault::TooMany { limit: 5 })));
    let failing = run(alloc, whole, vec![in alloc; 2]?, 6)?;
    assert!(rt; matches!(failing, Err(RunFault::ReadFault)));
    Ok(())
}
