// The numbers that flow tables hash by: nothing that is printed depends on them, and a run that makes
// tables isn't begun without.
use crate::tests::{WHOLE, hashing, run, run_hashing};
use std::test::Fail;

#[test]
fn runs_under_two_keys_print_alike(rt: HostRuntime) -> Result<(), Fail> {
    let made = run(&rt, rt.alloc(), &["make", "500", "1"], &[], WHOLE)?;
    for words in [
        ["report", "--serial", "0", "--journal"].as_slice(),
        ["report", "--cores", "2"].as_slice(),
    ] {
        let one = run_hashing(&rt, rt.alloc(), words, Some(hashing(1)), &made.out)?;
        let two = run_hashing(&rt, rt.alloc(), words, Some(hashing(200)), &made.out)?;
        assert_eq!(rt; (one.status, two.status), (0, 0));
        assert!(rt; one.out.as_slice() == two.out.as_slice());
        assert!(rt; one.notes.is_empty() && two.notes.is_empty());
    }
    Ok(())
}

#[test]
fn without_numbers_no_tables_are_made(rt: HostRuntime) -> Result<(), Fail> {
    for words in [["report"].as_slice(), ["demo", "10", "1"].as_slice()] {
        let ran = run_hashing(&rt, rt.alloc(), words, None, &[])?;
        assert_eq!(rt; ran.status, 4);
        assert!(rt; ran.out.is_empty() && !ran.is_told);
        assert!(rt; ran.notes.as_slice() == b"rsspp: read fault\n".as_slice());
    }
    let made = run_hashing(&rt, rt.alloc(), &["make", "3", "1"], None, &[])?;
    assert_eq!(rt; made.status, 0);
    let listed = run_hashing(&rt, rt.alloc(), &["hash"], None, &made.out)?;
    assert_eq!(rt; listed.status, 0);
    Ok(())
}
