ghost use Rattle.std.specs.Prelude.{◌≡◌, ◌<◌, length, IfOk};
ghost use Rattle.packet_pool.specs.Facts.{facts, IsAlone};

use crate::Lot;
use packet_fields::{Class, FlowKey, PacketInfo};
use packet_pool::{Cell, Kind};
use rss_base::NoMemory;
use std::alloc::{AllocError, Global};
use std::test::Fail;

// A cell of a bucket at a place.
fn cell(alloc: Global, bucket: u16, place: u32) -> Result<Box<Cell>, AllocError>
    ensures { IfOk result (λ c. ((facts c.value).bucket ≡ bucket) × IsAlone c.value) }
{
    let key = FlowKey {
        class: Class::Udp,
        source: 1,
        destination: 2,
        source_port: 1000,
        destination_port: 53,
        protocol: 17,
    };
    let info = PacketInfo {
        key,
        nanos: 0,
        original: 60,
        flags: 0,
    };
    let cell = Cell {
        info,
        bucket,
        place,
        kind: Kind::Next,
        next: None,
    };
    Ok(Box::new(alloc, cell)?)
}

fn four_buckets(alloc: Global) -> Result<Lot, NoMemory>
    ensures { IfOk result (λ lot. length lot.cells ≡ 4) }
{
    Lot::new(alloc, 4)
}

fn park(alloc: Global, lot: &mut Lot, bucket: u16, place: u32) -> Result<(), AllocError>
    requires { bucket < length lot.old.cells }
    ensures { length lot.new.cells ≡ length lot.old.cells }
{
    let cell = cell(alloc, bucket, place)?;
    lot.park(cell);
    Ok(())
}

// The bucket and the place of the oldest cell of a bucket, which is taken.
fn taken(lot: &mut Lot, bucket: u16) -> Option<(u16, u32)>
    requires { bucket < length lot.old.cells }
    ensures { length lot.new.cells ≡ length lot.old.cells }
{
    match lot.take_front(bucket) {
        None => None,
        Some(cell) => Some((cell.bucket, cell.place)),
    }
}

#[test]
fn cells_leave_in_the_order_in_which_they_came(rt: HostRuntime) -> Result<(), Fail> {
    let mut lot = four_buckets(rt.alloc())?;
    park(rt.alloc(), &mut lot, 3, 5)?;
    park(rt.alloc(), &mut lot, 1, 0)?;
    park(rt.alloc(), &mut lot, 3, 6)?;
    park(rt.alloc(), &mut lot, 3, 7)?;
    assert_eq!(rt; lot.first_place(3), Some(5));
    assert_eq!(rt; taken(&mut lot, 3), Some((3, 5)));
    park(rt.alloc(), &mut lot, 3, 8)?;
    assert_eq!(rt; lot.first_place(3), Some(6));
    assert_eq!(rt; taken(&mut lot, 3), Some((3, 6)));
    assert_eq!(rt; taken(&mut lot, 3), Some((3, 7)));
    assert_eq!(rt; taken(&mut lot, 3), Some((3, 8)));
    assert_eq!(rt; taken(&mut lot, 3), None);
    assert_eq!(rt; lot.waiting(0), Some(1));
    Ok(())
}

#[test]
fn buckets_wait_in_the_order_in_which_they_began(rt: HostRuntime) -> Result<(), Fail> {
    let mut lot = four_buckets(rt.alloc())?;
    park(rt.alloc(), &mut lot, 3, 5)?;
    park(rt.alloc(), &mut lot, 1, 0)?;
    park(rt.alloc(), &mut lot, 3, 6)?;
    assert_eq!(rt; lot.waiting(0), Some(3));
    assert_eq!(rt; lot.waiting(1), Some(1));
    assert_eq!(rt; lot.waiting(2), None);
    Ok(())
}

#[test]
fn an_empty_lot_has_nothing(rt: HostRuntime) -> Result<(), Fail> {
    let mut lot = four_buckets(rt.alloc())?;
    assert_eq!(rt; lot.waiting(0), None);
    assert_eq!(rt; lot.waiting(1), None);
    assert_eq!(rt; lot.first_place(0), None);
    assert_eq!(rt; lot.first_place(3), None);
    assert_eq!(rt; taken(&mut lot, 0), None);
    assert_eq!(rt; taken(&mut lot, 3), None);
    Ok(())
}
