use super::BucketTable;
use crate::tests::{hashing, packet};
use flow_work::Count;
use std::test::Fail;

// No clause speaks of the numbers that a table hashes by, since no answer depends on them.
#[test]
fn a_table_hashes_by_the_numbers_handed_in(rt: HostRuntime) -> Result<(), Fail> {
    let flow = packet(2000, 60);
    for byte in [1, 200] {
        let handed = hashing(byte);
        let mut table = BucketTable::<Count>::new(rt.alloc(), 7, &handed)?;
        table.begin_custody(3);
        table.work(&Count, &flow, 0);
        assert!(rt; table.flows.hasher().hash_of(flow.key) == handed.hash_of(flow.key));
    }
    assert!(rt; hashing(1).hash_of(flow.key) != hashing(200).hash_of(flow.key));
    Ok(())
}
