// Runs in threads, whose reports are those of one thread.
use crate::tests::schedules::{joined_to, moves_to_and_fro, of_one_flow};
use crate::tests::{WHOLE, run, run_under};
use std::test::Fail;

#[test]
fn a_large_flow_is_whole_in_threads(rt: HostRuntime) -> Result<(), Fail> {
    let capture = of_one_flow(rt.alloc(), 20_000)?;
    let text = b"tcp 66.9.149.187:2794 > 161.142.100.80:1766 packets 20000 bytes 1200000\n\
        total flows 1 packets 20000 bytes 1200000\n";
    for cores in ["1", "4", "64"] {
        let words = ["report", "--cores", cores, "--round", "100"];
        let ran = run(&rt, rt.alloc(), &words, &capture, WHOLE)?;
        assert!(rt; ran.status == 0 && ran.is_told);
        assert!(rt; ran.out.as_slice() == text.as_slice());
    }
    Ok(())
}

#[test]
fn order_folds_in_threads_as_on_one(rt: HostRuntime) -> Result<(), Fail> {
    let capture = of_one_flow(rt.alloc(), 1_000)?;
    let moves = moves_to_and_fro(rt.alloc(), 1_000)?;
    let words = [
        "report",
        "--work",
        "order",
        "--cores",
        "2",
        "--buckets",
        "1",
        "--pool",
        "2",
        "--moves",
        moves.as_str(),
    ];
    let one = run_under(&rt, rt.alloc(), 0, &words, &capture)?;
    assert!(rt; one.status == 0 && !one.is_told);
    for _ in 0..10 {
        let ran = run(&rt, rt.alloc(), &words, &capture, WHOLE)?;
        assert!(rt; ran.status == 0 && ran.is_told);
        assert!(rt; ran.out.as_slice() == one.out.as_slice());
    }
    Ok(())
}

#[test]
fn custodies_of_threads_join(rt: HostRuntime) -> Result<(), Fail> {
    let capture = of_one_flow(rt.alloc(), 1_000)?;
    let moves = moves_to_and_fro(rt.alloc(), 1_000)?;
    let words = [
        "report",
        "--cores",
        "2",
        "--buckets",
        "1",
        "--moves",
        moves.as_str(),
        "--journal",
    ];
    let ran = run(&rt, rt.alloc(), &words, &capture, WHOLE)?;
    assert!(rt; ran.status == 0 && ran.is_told);
    assert_eq!(rt; joined_to(str::from_utf8(&ran.out)?), Some(1_000));
    Ok(())
}
