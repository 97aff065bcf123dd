// What a gate is told, and what a meter: packets, and their cost.
use super::{hashing, new_lane, new_worker};
use crate::WorkerTurn;
use crate::tests::sending::{send, send_end};
use crate::tests::turning::turns;
use bucket_table::BucketTable;
use flow_work::OrderFold;
use handover_words::LocalShelf;
use load_meter::{LocalMeter, ReadLoad};
use packet_fields::NoName;
use packet_pool::{Kind, LocalPool};
use rss_base::Gate;
use std::cell::Cell;
use std::test::Fail;
use toeplitz::DEFAULT_KEY;

// A gate that keeps its first four calls, and counts them all.
#[derive(Drop)]
struct KeepingGate {
    calls: Cell<[(u8, u64); 4]>,
    count: Cell<usize>,
}

impl Gate for KeepingGate {
    fn pass(&self, core: u8, worked: u64) {
        let mut calls = self.calls.get();
        let count = self.count.get();
        if count < 4 {
            calls[count] = (core, worked);
        }
        self.calls.set(calls);
        self.count.set(count.saturating_add(1));
    }
}

#[test]
fn a_gate_is_told_packets_and_a_meter_costs(rt: HostRuntime) -> Result<(), Fail> {
    let alloc = rt.alloc();
    let mut pool = LocalPool::new(alloc, 4).expect(&rt, "memory");
    let mut lane = new_lane(alloc).expect(&rt, "memory");
    let mut shelf = LocalShelf::<BucketTable<OrderFold>, NoName>::new(
        alloc,
        &DEFAULT_KEY,
        1,
        &hashing(),
    ).expect(&rt, "memory");
    let mut meter = LocalMeter::new(alloc, 2).expect(&rt, "memory");
    assert!(rt; send(&mut lane, &mut pool, Kind::First, 0));
    assert!(rt; send(&mut lane, &mut pool, Kind::Next, 1));
    assert!(rt; send(&mut lane, &mut pool, Kind::Next, 2));
    assert!(rt; send_end(&mut lane));
    let mut worker = new_worker(alloc, 1, &lane, &shelf, &meter).expect(&rt, "memory");
    let gate = KeepingGate {
        calls: Cell::new([(0, 0); 4]),
        count: Cell::new(0),
    };
    let last = turns::<NoName, _, _, _, _, _, _>(
        &mut worker,
        &OrderFold,
        &mut lane,
        &mut shelf,
        &mut pool,
        &mut meter,
        &gate,
        20,
    );
    assert_eq!(rt; last, WorkerTurn::Ended);
    assert_eq!(rt; gate.count.get(), 3);
    assert_eq!(rt; gate.calls.get(), [(1, 0), (1, 1), (1, 2), (0, 0)]);
    // Each packet has 640 bytes, and costs 11.
    assert_eq!(rt; (worker.worked(), worker.cost()), (3, 33));
    assert_eq!(rt; (meter.read(0), meter.read(1)), (0, 33));
    Ok(())
}
