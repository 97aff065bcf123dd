use crate::{Table, TableFault};
use std::test::Fail;

#[test]
fn a_new_table_is_shared_out_in_turn(rt: HostRuntime) -> Result<(), Fail> {
    let mut table = Table::new(rt.alloc(), 3, 8)?;
    assert!(rt; table.owners() == [0, 1, 2, 0, 1, 2, 0, 1].as_slice());
    assert_eq!(rt; table.bucket(0x51cc_c178), 0);
    assert_eq!(rt; table.bucket(13), 5);
    table.set(5, 0);
    assert!(rt; table.owners() == [0, 1, 2, 0, 1, 0, 0, 1].as_slice());
    assert_eq!(rt; (table.cores(), table.buckets(), table.owner(5)), (3, 8, 0));
    Ok(())
}

#[test]
fn a_list_is_refused_by_its_length_first(rt: HostRuntime) {
    let bad_count = TableFault::BadCount { have: 1, want: 2 };
    let bad_core = TableFault::BadCore { place: 1, core: 5 };
    let alloc = rt.alloc();
    assert_eq!(rt; Table::of_list(alloc, 2, 2, &[0]).err(), Some(bad_count));
    assert_eq!(rt; Table::of_list(alloc, 2, 2, &[5]).err(), Some(bad_count));
    assert_eq!(rt; Table::of_list(alloc, 2, 2, &[0, 5]).err(), Some(bad_core));
    assert_eq!(rt;
        Table::of_list(alloc, 2, 3, &[1, 5, 9]).err(),
        Some(bad_core)
    );
    assert_eq!(rt; Table::of_list(alloc, 2, 2, &[0, 1]).err(), None);
}
