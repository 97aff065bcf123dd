// Runs whose journals and custodies are worked by hand.
ghost use Rattle.std.specs.Prelude.{◌≡◌, IfOk};
ghost use Rattle.dispatch_loop.specs.Accepted.{IsAccepted};

use crate::capture::capture;
use crate::run::{Ran, run};
use balancer::PolicyName;
use bucket_table::{BucketTable, Custody};
use dispatch_loop::{DispatcherEnd, Options};
use flow_report::report;
use flow_work::{OrderFold, WorkName};
use indirection::{Entry, Journal, MoveOrder, Outcome, Table};
use packet_fields::NoName;
use rss_base::MemorySink;
use std::alloc::Global;
use std::sync::Wait;
use std::test::Fail;
use toeplitz::DEFAULT_KEY;

// Whether the entries of a journal are these orders, with what came of them.
fn has_orders(journal: &Journal, orders: &[(MoveOrder, Outcome)]) -> bool {
    let entries = journal.entries();
    if entries.len() != orders.len() {
        return false;
    }
    for (entry, (order, outcome)) in entries.iter().zip(orders.iter()) {
        let same = match entry {
            Entry::Round(_) => false,
            Entry::Order(entry) => entry.order == *order && entry.outcome == *outcome,
        };
        if !same {
            return false;
        }
    }
    true
}

// The only bucket goes to core 1 behind two packets, and back behind five.
const THERE: MoveOrder = MoveOrder {
    at: 2,
    bucket: 0,
    to: 1,
};

const BACK: MoveOrder = MoveOrder {
    at: 5,
    bucket: 0,
    to: 0,
};

// Two cores and one bucket, which goes there and back.
fn handovers(alloc: Global) -> Result<Options, Fail>
    ensures accepted { IfOk result IsAccepted }
    ensures cores { IfOk result (λ o. o.cores ≡ 2) }
{
    let start = Table::new(alloc, 2, 1)?;
    Ok(Options {
        key: DEFAULT_KEY,
        cores: 2,
        start,
        work: WorkName::OrderFold,
        moves: vec![in alloc; THERE, BACK]?,
        round: 1_000,
        limit: 4,
        policy: PolicyName::Greedy,
        pool: 16,
        packets: 6,
    })
}

const fn custody(core: u8, from: u32, to: u32) -> Custody {
    Custody {
        bucket: 0,
        core,
        from,
        to,
    }
}

// The report of the six packets.
const REPORT: &str = "\
tcp 66.9.149.187:2794 > 161.142.100.80:1766 order 1784838720
total flows 1 packets 6 bytes 420
";

// The report of the only table, where it is there and not short.
fn report_of(alloc: Global, table: Option<BucketTable<OrderFold>>) -> Result<Vec<u8>, Fail> {
    let Some(table) = table else {
        return Ok(Vec::new(alloc));
    };
    if table.short() {
        return Ok(Vec::new(alloc));
    }
    // A count of 32 bits, as the report asks.
    let _done = table.done();
    let mut out = MemorySink::new(alloc, 1_000, Vec::new(alloc))?;
    report(alloc, &OrderFold, &[table], &mut out)?;
    Ok(out.bytes().to_vec(alloc)?)
}

// Whether all parties finished, with a whole journal.
fn has_ended(ran: &Ran<OrderFold>) -> bool {
    ran.end == Some(DispatcherEnd::AtEnd) && !ran.dispatcher.short()
}

fn six_packets<R: Wait>(rt: &R, alloc: Global, number: u32) -> Result<Ran<OrderFold>, Fail> {
    let bytes = capture(alloc, &[60, 70, 80, 60, 70, 80])?;
    let options = handovers(alloc)?;
    run::<OrderFold, NoName, R>(rt, alloc, &options, &OrderFold, bytes, number)
}

#[test]
fn a_bucket_is_handed_over_and_back(rt: HostRuntime) -> Result<(), Fail> {
    let ran = six_packets(&rt, rt.alloc(), 0)?;
    let orders = [
        (THERE, Outcome::Moved { tail: 2 }),
        (BACK, Outcome::Moved { tail: 5 }),
    ];
    assert!(rt; has_ended(&ran));
    assert!(rt; has_orders(ran.dispatcher.journal(), &orders));
    assert!(rt; ran.first.log() == [custody(0, 0, 2), custody(0, 5, 6)].as_slice());
    assert!(rt; ran.second.log() == [custody(1, 2, 5)].as_slice());
    assert_eq!(rt; (ran.first.worked(), ran.second.worked()), (3, 3));
    let Ran { table, .. } = ran;
    assert!(rt; report_of(rt.alloc(), table)?.as_slice() == REPORT.as_bytes());
    Ok(())
}

#[test]
fn each_order_of_turns_keeps_the_order_of_packets(rt: HostRuntime) -> Result<(), Fail> {
    for number in [1, 65_536, 131_072, 2_654_435_769, 4_294_967_295] {
        let ran = six_packets(&rt, rt.alloc(), number)?;
        assert!(rt; has_ended(&ran));
        let Ran { table, .. } = ran;
        assert!(rt; report_of(rt.alloc(), table)?.as_slice() == REPORT.as_bytes());
    }
    Ok(())
}
