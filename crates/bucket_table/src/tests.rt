use crate::{BucketTable, Custody, FLOW_HASH_KEY_BYTES, FlowHashKey};
use flow_work::{Count, Counted};
use packet_fields::{Class, FlowKey, PacketInfo};
use std::alloc::Global;
use std::process::Abort;
use std::test::Fail;

// A packet of the flow from this port.
pub(crate) fn packet(port: u16, original: u32) -> PacketInfo {
    PacketInfo {
        key: FlowKey {
            class: Class::Udp,
            source: 1,
            destination: 2,
            source_port: port,
            destination_port: 53,
            protocol: 17,
        },
        nanos: 0,
        original,
        flags: 0,
    }
}

// Numbers to hash by, which everybody knows.
pub(crate) fn hashing(byte: u8) -> FlowHashKey {
    FlowHashKey::from_bytes(&[byte; FLOW_HASH_KEY_BYTES])
}

#[test]
fn two_flows_in_the_order_of_their_first_packets(rt: HostRuntime) -> Result<(), Fail> {
    let mut table = BucketTable::<Count>::new(rt.alloc(), 7, &hashing(1)).expect(&rt, "memory");
    table.begin_custody(3);
    table.work(&Count, &packet(2000, 60), 0);
    table.work(&Count, &packet(1000, 100), 1);
    table.work(&Count, &packet(2000, 40), 2);
    assert_eq!(rt; table.flow_count(), 2);
    let (key, state) = table.flow(0);
    assert_eq!(rt; key.source_port, 2000);
    assert_eq!(rt;
        *state,
        Counted {
            packets: 2,
            bytes: 100
        }
    );
    let (key, _) = table.flow(1);
    assert_eq!(rt; key.source_port, 1000);
    Ok(())
}

#[test]
fn a_custody_is_from_what_was_done_to_what_is(rt: HostRuntime) -> Result<(), Fail> {
    let mut table = BucketTable::<Count>::new(rt.alloc(), 7, &hashing(1)).expect(&rt, "memory");
    table.begin_custody(3);
    table.work(&Count, &packet(2000, 60), 0);
    table.end_custody();
    table.begin_custody(1);
    table.work(&Count, &packet(1000, 100), 1);
    table.work(&Count, &packet(2000, 40), 2);
    let custody = table.end_custody();
    assert_eq!(rt;
        custody,
        Custody {
            bucket: 7,
            core: 1,
            from: 1,
            to: 3
        }
    );
    assert_eq!(rt; (table.bucket(), table.done(), table.bytes()), (7, 3, 200));
    assert!(rt; !table.short());
    Ok(())
}

// A table of two flows that hashes by these numbers.
fn table_by(rt: &impl Abort, alloc: Global, hashing: &FlowHashKey) -> BucketTable<Count> {
    let mut table = BucketTable::<Count>::new(alloc, 7, hashing).expect(rt, "memory");
    table.begin_custody(3);
    table.work(&Count, &packet(2000, 60), 0);
    table.work(&Count, &packet(1000, 100), 1);
    table.work(&Count, &packet(2000, 40), 2);
    table
}

#[test]
fn tables_under_two_keys_are_alike(rt: HostRuntime) -> Result<(), Fail> {
    let (one, two) = (hashing(1), hashing(200));
    let key = packet(2000, 60).key;
    assert!(rt; one.hash_of(key) != two.hash_of(key));
    let first = table_by(&rt, rt.alloc(), &one);
    let second = table_by(&rt, rt.alloc(), &two);
    assert_eq!(rt; first.flow_count(), 2);
    assert_eq!(rt; second.flow_count(), 2);
    for index in [0, 1] {
        let (key, state) = first.flow(index);
        let (other_key, other_state) = second.flow(index);
        assert!(rt; key == other_key && state == other_state);
    }
    Ok(())
}

// Worked out by another program: the key is the bytes 0, 1, 2, .., as numbers of 16 bytes each.
#[test]
fn a_hash_is_the_high_half_of_a_sum(rt: HostRuntime) -> Result<(), Fail> {
    let mut bytes = [0; FLOW_HASH_KEY_BYTES];
    for (at, byte) in bytes.iter_mut().enumerate() {
        *byte = at as u8;
    }
    let key = FlowHashKey::from_bytes(&bytes);
    let flow = FlowKey {
        class: Class::Tcp6,
        source: 0x2001_0db8_0000_0000_0000_0000_0000_0001,
        destination: 0xfe80_0000_0000_0000_0123_4567_89ab_cdef,
        source_port: 443,
        destination_port: 51234,
        protocol: 6,
    };
    assert_eq!(rt; key.hash_of(flow), 0x799c_bfe3_0629_4c6f);
    assert_eq!(rt;
        format!(in rt.alloc(); "{key:?}")?.as_str(),
        "FlowHashKey { .. }"
    );
    Ok(())
}
