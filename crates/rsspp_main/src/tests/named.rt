// A run whose packets are named.
use crate::tests::{WHOLE, run};
use std::test::Fail;

#[test]
fn a_report_of_the_named_packet_is_its_text(rt: HostRuntime) -> Result<(), Fail> {
    let made = run(&rt, rt.alloc(), &["make", "1", "0"], &[], WHOLE)?;
    let ran = run(&rt, rt.alloc(), &["report"], &made.out, WHOLE)?;
    let text = b"tcp 10.0.0.0:1024 > 192.168.0.1:80 packets 1 bytes 60\n\
        total flows 1 packets 1 bytes 60\n";
    assert!(rt; ran.status == 0 && ran.is_told && ran.out.as_slice() == text.as_slice());
    Ok(())
}
