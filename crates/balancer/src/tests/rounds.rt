// Worked instances, and calls that fail.
use super::{plan, plans};
use crate::PlanFault;
use std::test::Fail;

const THREE_BUCKETS: &str = "cores 2\nlimit 4\nbase 0 0\nbucket 0 6\nbucket 0 3\nbucket 0 1\n";

#[test]
fn the_greatest_gain_is_proposed(rt: HostRuntime) -> Result<(), Fail> {
    let out = "move 0 0 1 gain 24\nloads 4 6\nimbalance 8\n";
    assert!(rt; plans(rt.alloc(), THREE_BUCKETS, out)?);
    Ok(())
}

#[test]
fn a_load_that_fills_the_difference_stays(rt: HostRuntime) -> Result<(), Fail> {
    let text = "cores 2\nlimit 4\nbase 0 0\nbucket 0 10\n";
    assert!(rt; plans(rt.alloc(), text, "loads 10 0\nimbalance 200\n")?);
    Ok(())
}

#[test]
fn even_cores_keep_their_buckets(rt: HostRuntime) -> Result<(), Fail> {
    let text = "cores 2\nlimit 4\nbase 0 0\nbucket 0 5\nbucket 1 5\n";
    assert!(rt; plans(rt.alloc(), text, "loads 5 5\nimbalance 0\n")?);
    Ok(())
}

#[test]
fn the_lowest_bucket_of_equal_gain_is_proposed(rt: HostRuntime) -> Result<(), Fail> {
    let text = "cores 2\nlimit 4\nbase 0 0\nbucket 0 4\nbucket 0 6\n";
    let out = "move 0 0 1 gain 24\nloads 6 4\nimbalance 8\n";
    assert!(rt; plans(rt.alloc(), text, out)?);
    Ok(())
}

// The total is 20 and the loads are 12, 4, 4: both other cores gain 4 * 4.
#[test]
fn the_lowest_core_of_equal_gain_takes_the_bucket(rt: HostRuntime) -> Result<(), Fail> {
    let text = "cores 3\nlimit 1\nbase 8 4 4\nbucket 0 4";
    let out = "move 0 0 1 gain 16\nloads 8 8 4\nimbalance 96\n";
    assert!(rt; plans(rt.alloc(), text, out)?);
    Ok(())
}

#[test]
fn the_limit_ends_a_round(rt: HostRuntime) -> Result<(), Fail> {
    let text = "cores 2\nlimit 0\nbase 0 0\nbucket 0 6\nbucket 0 3\n";
    assert!(rt; plans(rt.alloc(), text, "loads 9 0\nimbalance 162\n")?);
    Ok(())
}

// The greatest numbers: two loads of 2^40 on one core, and the bases 2^40 and 0.
#[test]
fn the_greatest_loads_are_weighed(rt: HostRuntime) -> Result<(), Fail> {
    let text =
        "cores 2\nlimit 16\nbase 1099511627776 0\nbucket 0 1099511627776\nbucket 0 1099511627776\n";
    let out =
        "move 0 0 1 gain 2417851639229258349412352\nloads 2199023255552 1099511627776\nimbalance 2417851639229258349412352\n";
    assert!(rt; plans(rt.alloc(), text, out)?);
    Ok(())
}

#[test]
fn a_failed_read_is_answered(rt: HostRuntime) -> Result<(), Fail> {
    for call in 1..12 {
        let planned = plan(rt.alloc(), THREE_BUCKETS.as_bytes(), 6, call, 0)?;
        assert!(rt; planned.answer == Err(PlanFault::ReadFault) && planned.out.is_empty());
    }
    Ok(())
}

#[test]
fn a_failed_write_is_answered(rt: HostRuntime) -> Result<(), Fail> {
    let planned = plan(rt.alloc(), THREE_BUCKETS.as_bytes(), 64, 0, 1)?;
    assert!(rt; planned.answer == Err(PlanFault::WriteFault));
    Ok(())
}
