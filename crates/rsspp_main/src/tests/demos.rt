// Generated traffic in short.
use crate::tests::{WHOLE, answers, run};
use std::test::Fail;

#[test]
fn demos_agree_under_every_number_of_cores(rt: HostRuntime) -> Result<(), Fail> {
    let one = run(
        &rt,
        rt.alloc(),
        &["demo", "20000", "7", "--cores", "1"],
        &[],
        WHOLE,
    )?;
    assert_eq!(rt; one.status, 0);
    assert!(rt; one.out.starts_with(b"demo 20000 7\ntotal flows "));
    for (option, value) in [("--cores", "4"), ("--cores", "64"), ("--serial", "3")] {
        let ran = run(
            &rt,
            rt.alloc(),
            &["demo", "20000", "7", option, value],
            &[],
            WHOLE,
        )?;
        assert!(rt; ran.status == 0 && ran.out.as_slice() == one.out.as_slice());
    }
    Ok(())
}

#[test]
fn a_demo_of_too_many_packets_is_refused(rt: HostRuntime) -> Result<(), Fail> {
    let words = ["demo", "0000000008", "1", "--packets", "7"];
    let notes = "rsspp: more than 7 packets\n";
    assert!(rt; answers(&rt, rt.alloc(), &words, &[], 7, "", notes)?);
    Ok(())
}
