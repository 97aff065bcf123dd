ghost use Rattle.std.specs.Prelude.{◌≡◌, false};

use crate::sums::totals;
use crate::{ReportFault, Totals, report};
use bucket_table::{BucketTable, FLOW_HASH_KEY_BYTES, FlowHashKey};
use flow_work::Count;
use packet_fields::{Class, FlowKey, PacketInfo};
use rss_base::MemorySink;
use std::alloc::Global;
use std::process::Abort;
use std::test::Fail;

const TEXT: &[u8] =
    b"udp 10.0.0.1:1000 > 10.0.0.2:53 packets 1 bytes 100\nudp 10.0.0.1:2000 > 10.0.0.2:53 packets 1 bytes 60\ntotal flows 2 packets 2 bytes 160\n";

// A packet of the flow from this port.
fn packet(port: u16, original: u32) -> PacketInfo {
    PacketInfo {
        key: FlowKey {
            class: Class::Udp,
            source: 0x0a00_0001,
            destination: 0x0a00_0002,
            source_port: port,
            destination_port: 53,
            protocol: 17,
        },
        nanos: 0,
        original,
        flags: 0,
    }
}

// Numbers to hash by, which everybody knows.
fn hashing() -> FlowHashKey {
    FlowHashKey::from_bytes(&[7; FLOW_HASH_KEY_BYTES])
}

// A table of two flows, the later of which comes first in key order.
fn table_of_two(rt: &impl Abort, alloc: Global) -> BucketTable<Count>
    ensures short { result.short ≡ false }
    ensures done { result.done ≡ 2 }
{
    let mut table = BucketTable::<Count>::new(alloc, 0, &hashing()).expect(rt, "memory");
    table.begin_custody(0);
    table.work(&Count, &packet(2000, 60), 0);
    table.work(&Count, &packet(1000, 100), 1);
    assert!(rt; !table.short());
    table
}

#[test]
fn flows_stand_in_key_order(rt: HostRuntime) -> Result<(), Fail> {
    let tables = [table_of_two(&rt, rt.alloc())];
    let mut out = MemorySink::new(rt.alloc(), 200, Vec::new(rt.alloc())).expect(&rt, "memory");
    let written = report(rt.alloc(), &Count, &tables, &mut out);
    assert_eq!(rt; written, Ok(()));
    assert_eq!(rt; out.bytes(), TEXT);
    Ok(())
}

#[test]
fn a_failed_write_ends_the_report(rt: HostRuntime) -> Result<(), Fail> {
    let tables = [table_of_two(&rt, rt.alloc())];
    let fail_at = [2].to_vec(rt.alloc())?;
    let mut out = MemorySink::new(rt.alloc(), 200, fail_at).expect(&rt, "memory");
    let written = report(rt.alloc(), &Count, &tables, &mut out);
    assert_eq!(rt; written, Err(ReportFault::WriteFault));
    assert_eq!(rt; out.bytes().len(), 52);
    Ok(())
}

#[test]
fn totals_count_flows_packets_and_bytes(rt: HostRuntime) -> Result<(), Fail> {
    let tables = [table_of_two(&rt, rt.alloc())];
    assert_eq!(rt;
        totals(&tables),
        Totals {
            flows: 2,
            packets: 2,
            bytes: 160
        }
    );
    Ok(())
}
