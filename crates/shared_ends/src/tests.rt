// Two threads at shared ends.
mod opening;
mod packets;

use crate::{send_and_work, work_in_turn};
use bucket_table::BucketTable;
use flow_work::{Count, FlowWork, OrderFold};
use load_meter::ReadLoad;
use opening::{ForTwo, Opened, open_for_two, shelf_for_two};
use packet_fields::{NoName, PacketInfo};
use packets::{frame, frames};
use std::test::Fail;

// What the lengths 0 to 3,999 make of each other in this order.
const NUMBER: u32 = 3499255760;

// The number of the only flow of a table.
fn only(table: &BucketTable<OrderFold>) -> Option<u32> {
    if table.flow_count() == 1 {
        Some(*table.flow(0).1)
    } else {
        None
    }
}

// The number of the packets on one thread.
fn folded(packets: &[PacketInfo]) -> u32 {
    let mut number = OrderFold.begin();
    for packet in packets {
        number = OrderFold.step(number, packet);
    }
    number
}

#[test]
fn two_threads_hand_a_table_to_each_other(rt: HostRuntime) -> Result<(), Fail> {
    let ForTwo { shelf, one, other } = shelf_for_two::<OrderFold, NoName>(rt.alloc()).expect(
        &rt, "memory",
    );
    let packets = frames(rt.alloc(), 4000).expect(&rt, "memory");
    let Ok(table) = work_in_turn(&rt, &shelf, one, other, &OrderFold, packets.as_slice(), 0) else {
        return Err("the table was not there behind the last packet").map_err(Fail::from);
    };
    assert_eq!(rt; (table.bucket(), table.done()), (0, 4000));
    assert_eq!(rt; only(&table), Some(NUMBER));
    assert_eq!(rt; folded(packets.as_slice()), NUMBER);
    Ok(())
}

#[test]
fn a_packet_goes_from_one_thread_to_the_other(rt: HostRuntime) -> Result<(), Fail> {
    let Opened {
        lane,
        shelf,
        pool,
        meter,
        sender,
        taker,
    } = open_for_two::<_, Count, NoName>(&rt, rt.alloc()).expect(&rt, "memory");
    let mut tables = Vec::with_capacity(rt.alloc(), 1)?;
    let left = send_and_work(
        &rt,
        lane,
        shelf,
        &pool,
        &meter,
        sender,
        taker,
        &Count,
        &frame(60),
        0,
        1,
        &mut tables,
    );
    assert_eq!(rt; (left.worked, tables.len()), (1, 1));
    assert_eq!(rt; (tables[0].done(), tables[0].bytes()), (1, 60));
    assert_eq!(rt; meter.end(left.load).read(1), 1);
    Ok(())
}
