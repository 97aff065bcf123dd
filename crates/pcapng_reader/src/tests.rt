use crate::breaks::front_break_at;
use crate::scope::Scope;
use crate::time::nanos_by;
use crate::{ByteOrder, Interface, NgBreak, NgKind};
use std::alloc::Global;
use std::test::Fail;

// What is wrong at the front of block 1 of a section that has one Ethernet interface, behind a first
// record of Ethernet. The expected breaks were computed by another program, written from the format's
// definition alone.
fn breaks(alloc: Global, order: ByteOrder, front: &[u8]) -> Result<Option<(NgKind, u32)>, Fail> {
    let mut scope = Scope::new(alloc)?;
    scope.begin(order);
    if scope.interfaces() < 256 {
        scope.add(Interface {
            link: 1,
            snap: 262_144,
            resolution: 6,
        });
    }
    scope.tell_link(1);
    if front.len() > 28 {
        return Ok(None);
    }
    Ok(front_break_at(&scope, 1, front).map(|broken| (broken.kind, broken.value)))
}

#[test]
fn the_first_row_of_the_table_breaks_a_little_endian_block(rt: HostRuntime) -> Result<(), Fail> {
    let alloc = rt.alloc();
    assert!(rt; breaks(alloc, ByteOrder::Little, &[6, 0, 0, 0, 0x20])? == Some((NgKind::Short, 5)));
    assert!(rt;
        breaks(
            alloc,
            ByteOrder::Little,
            &[0x0a, 0x0d, 0x0d, 0x0a, 0x1c, 0, 0, 0, 0x4d, 0x3c, 0x2b]
        )? == Some((NgKind::Short, 11))
    );
    assert!(rt;
        breaks(
            alloc,
            ByteOrder::Little,
            &[
                0x0a, 0x0d, 0x0d, 0x0a, 0x1c, 0, 0, 0, 4, 3, 2, 1, 1, 0, 0, 0, 0xff, 0xff, 0xff,
                0xff, 0xff, 0xff, 0xff, 0xff, 0x1c, 0, 0, 0
            ]
        )? == Some((NgKind::Order, 67305985))
    );
    assert!(rt;
        breaks(
            alloc,
            ByteOrder::Little,
            &[0x4d, 0, 0, 0, 0x0e, 0, 0, 0, 0x0e, 0, 0, 0]
        )? == Some((NgKind::Length, 14))
    );
    assert!(rt;
        breaks(
            alloc,
            ByteOrder::Little,
            &[0x4d, 0, 0, 0, 8, 0, 0, 0, 8, 0, 0, 0]
        )? == Some((NgKind::Length, 8))
    );
    assert!(rt;
        breaks(
            alloc,
            ByteOrder::Little,
            &[
                0x0a, 0x0d, 0x0d, 0x0a, 0x18, 0, 0, 0, 0x4d, 0x3c, 0x2b, 0x1a, 1, 0, 0, 0, 0xff,
                0xff, 0xff, 0xff, 0xff, 0xff, 0xff, 0xff, 0x18, 0, 0, 0
            ]
        )? == Some((NgKind::Length, 24))
    );
    assert!(rt;
        breaks(
            alloc,
            ByteOrder::Little,
            &[
                6, 0, 0, 0, 0x28, 0, 0, 0, 0, 0, 0, 0, 0, 0, 0, 0, 5, 0, 0, 0, 5, 0, 0, 0, 5, 0, 0
            ]
        )? == Some((NgKind::Short, 27))
    );
    assert!(rt;
        breaks(
            alloc,
            ByteOrder::Little,
            &[
                0x0a, 0x0d, 0x0d, 0x0a, 0x1c, 0, 0, 0, 0x4d, 0x3c, 0x2b, 0x1a, 2, 0, 0, 0, 0xff,
                0xff, 0xff, 0xff, 0xff, 0xff, 0xff, 0xff, 0x1c, 0, 0, 0
            ]
        )? == Some((NgKind::Version, 2))
    );
    assert!(rt;
        breaks(
            alloc,
            ByteOrder::Little,
            &[
                6, 0, 0, 0, 0x28, 0, 0, 0, 1, 0, 0, 0, 0, 0, 0, 0, 0, 0, 0, 0, 5, 0, 0, 0, 5, 0, 0,
                0
            ]
        )? == Some((NgKind::Interface, 1))
    );
    assert!(rt;
        breaks(
            alloc,
            ByteOrder::Little,
            &[
                6, 0, 0, 0, 0x28, 0, 0, 0, 0, 0, 0, 0, 0, 0, 0, 0, 0, 0, 0, 0, 1, 0, 4, 0, 5, 0, 0,
                0
            ]
        )? == Some((NgKind::Long, 262145))
    );
    assert!(rt;
        breaks(
            alloc,
            ByteOrder::Little,
            &[
                6, 0, 0, 0, 0x28, 0, 0, 0, 0, 0, 0, 0, 0, 0, 0, 0, 0, 0, 0, 0, 9, 0, 0, 0, 5, 0, 0,
                0
            ]
        )? == Some((NgKind::Length, 40))
    );
    assert!(rt;
        breaks(
            alloc,
            ByteOrder::Little,
            &[
                3, 0, 0, 0, 0x18, 0, 0, 0, 9, 0, 0, 0, 1, 2, 3, 4, 5, 0, 0, 0, 0x18, 0, 0, 0
            ]
        )? == Some((NgKind::Length, 24))
    );
    assert!(rt;
        breaks(
            alloc,
            ByteOrder::Little,
            &[5, 0, 0, 0, 0x0c, 0, 0, 0, 0x0c, 0, 0, 0]
        )? == None
    );
    assert!(rt;
        breaks(
            alloc,
            ByteOrder::Little,
            &[
                1, 0, 0, 0, 0x14, 0, 0, 0, 0x65, 0, 0, 0, 0, 0, 4, 0, 0x14, 0, 0, 0
            ]
        )? == None
    );
    Ok(())
}

#[test]
fn the_first_row_of_the_table_breaks_a_big_endian_block(rt: HostRuntime) -> Result<(), Fail> {
    let alloc = rt.alloc();
    assert!(rt; breaks(alloc, ByteOrder::Big, &[6, 0, 0, 0, 0x20])? == Some((NgKind::Short, 5)));
    assert!(rt;
        breaks(
            alloc,
            ByteOrder::Big,
            &[0x0a, 0x0d, 0x0d, 0x0a, 0, 0, 0, 0x1c, 0x1a, 0x2b, 0x3c]
        )? == Some((NgKind::Short, 11))
    );
    assert!(rt;
        breaks(
            alloc,
            ByteOrder::Big,
            &[
                0x0a, 0x0d, 0x0d, 0x0a, 0, 0, 0, 0x1c, 1, 2, 3, 4, 0, 1, 0, 0, 0xff, 0xff, 0xff,
                0xff, 0xff, 0xff, 0xff, 0xff, 0, 0, 0, 0x1c
            ]
        )? == Some((NgKind::Order, 16909060))
    );
    assert!(rt;
        breaks(
            alloc,
            ByteOrder::Big,
            &[0, 0, 0, 0x4d, 0, 0, 0, 0x0e, 0, 0, 0, 0x0e]
        )? == Some((NgKind::Length, 14))
    );
    assert!(rt;
        breaks(
            alloc,
            ByteOrder::Big,
            &[0, 0, 0, 0x4d, 0, 0, 0, 8, 0, 0, 0, 8]
        )? == Some((NgKind::Length, 8))
    );
    assert!(rt;
        breaks(
            alloc,
            ByteOrder::Big,
            &[
                0x0a, 0x0d, 0x0d, 0x0a, 0, 0, 0, 0x18, 0x1a, 0x2b, 0x3c, 0x4d, 0, 1, 0, 0, 0xff,
                0xff, 0xff, 0xff, 0xff, 0xff, 0xff, 0xff, 0, 0, 0, 0x18
            ]
        )? == Some((NgKind::Length, 24))
    );
    assert!(rt;
        breaks(
            alloc,
            ByteOrder::Big,
            &[
                0, 0, 0, 6, 0, 0, 0, 0x28, 0, 0, 0, 0, 0, 0, 0, 0, 0, 0, 0, 5, 0, 0, 0, 5, 0, 0, 0
            ]
        )? == Some((NgKind::Short, 27))
    );
    assert!(rt;
        breaks(
            alloc,
            ByteOrder::Big,
            &[
                0x0a, 0x0d, 0x0d, 0x0a, 0, 0, 0, 0x1c, 0x1a, 0x2b, 0x3c, 0x4d, 0, 2, 0, 0, 0xff,
                0xff, 0xff, 0xff, 0xff, 0xff, 0xff, 0xff, 0, 0, 0, 0x1c
            ]
        )? == Some((NgKind::Version, 2))
    );
    assert!(rt;
        breaks(
            alloc,
            ByteOrder::Big,
            &[
                0, 0, 0, 6, 0, 0, 0, 0x28, 0, 0, 0, 1, 0, 0, 0, 0, 0, 0, 0, 0, 0, 0, 0, 5, 0, 0, 0,
                5
            ]
        )? == Some((NgKind::Interface, 1))
    );
    assert!(rt;
        breaks(
            alloc,
            ByteOrder::Big,
            &[
                0, 0, 0, 6, 0, 0, 0, 0x28, 0, 0, 0, 0, 0, 0, 0, 0, 0, 0, 0, 0, 0, 4, 0, 1, 0, 0, 0,
                5
            ]
        )? == Some((NgKind::Long, 262145))
    );
    assert!(rt;
        breaks(
            alloc,
            ByteOrder::Big,
            &[
                0, 0, 0, 6, 0, 0, 0, 0x28, 0, 0, 0, 0, 0, 0, 0, 0, 0, 0, 0, 0, 0, 0, 0, 9, 0, 0, 0,
                5
            ]
        )? == Some((NgKind::Length, 40))
    );
    assert!(rt;
        breaks(
            alloc,
            ByteOrder::Big,
            &[
                0, 0, 0, 3, 0, 0, 0, 0x18, 0, 0, 0, 9, 1, 2, 3, 4, 5, 0, 0, 0, 0, 0, 0, 0x18
            ]
        )? == Some((NgKind::Length, 24))
    );
    assert!(rt;
        breaks(
            alloc,
            ByteOrder::Big,
            &[0, 0, 0, 5, 0, 0, 0, 0x0c, 0, 0, 0, 0x0c]
        )? == None
    );
    assert!(rt;
        breaks(
            alloc,
            ByteOrder::Big,
            &[
                0, 0, 0, 1, 0, 0, 0, 0x14, 0, 0x65, 0, 0, 0, 4, 0, 0, 0, 0, 0, 0x14
            ]
        )? == None
    );
    Ok(())
}

#[test]
fn a_block_above_the_greatest_number_breaks(rt: HostRuntime) -> Result<(), Fail> {
    for order in [ByteOrder::Little, ByteOrder::Big] {
        let mut scope = Scope::new(rt.alloc())?;
        scope.begin(order);
        let found = front_break_at(&scope, 4294967295, &[0]);
        assert!(rt;
            found
                == Some(NgBreak {
                    block: 4294967295,
                    kind: NgKind::Blocks,
                    value: 0
                })
        );
    }
    Ok(())
}

#[test]
fn a_time_is_rounded_down_to_nanoseconds(rt: HostRuntime) {
    assert_eq!(rt; nanos_by(5000000, 6), 5000000000);
    assert_eq!(rt; nanos_by(4294967303, 9), 4294967303);
    assert_eq!(rt; nanos_by(4294967303, 138), 4194304006835937);
    assert_eq!(rt; nanos_by(18446744073709551615, 0), 4294967295999999999);
    assert_eq!(rt; nanos_by(4294967295, 0), 4294967295000000000);
    assert_eq!(rt; nanos_by(4294967296, 0), 4294967295999999999);
    assert_eq!(rt; nanos_by(18446744073709551615, 127), 0);
    assert_eq!(rt; nanos_by(18446744073709551615, 255), 0);
    assert_eq!(rt; nanos_by(18446744073709551615, 28), 1);
    assert_eq!(rt; nanos_by(1, 128), 1000000000);
    assert_eq!(rt; nanos_by(3, 129), 1500000000);
    assert_eq!(rt; nanos_by(1000000000, 28), 0);
    assert_eq!(rt; nanos_by(123456789012, 12), 123456789);
}
