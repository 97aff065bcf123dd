// Plans: the worked rounds, and a text that breaks.
use crate::tests::answers;
use std::test::Fail;

#[test]
fn a_plan_says_its_moves_and_what_follows(rt: HostRuntime) -> Result<(), Fail> {
    let plans = [
        (
            "cores 2\nlimit 4\nbase 0 0\nbucket 0 6\nbucket 0 3\nbucket 0 1\n",
            "move 0 0 1 gain 24\nloads 4 6\nimbalance 8\n",
        ),
        (
            "cores 2\nlimit 4\nbase 0 0\nbucket 0 10\n",
            "loads 10 0\nimbalance 200\n",
        ),
        (
            "cores 2\nlimit 4\nbase 0 0\nbucket 0 5\nbucket 1 5\n",
            "loads 5 5\nimbalance 0\n",
        ),
        (
            "cores 2\nlimit 4\nbase 0 0\nbucket 0 4\nbucket 0 6\n",
            "move 0 0 1 gain 24\nloads 6 4\nimbalance 8\n",
        ),
    ];
    for (text, out) in plans {
        assert!(rt; answers(&rt, rt.alloc(), &["plan"], text.as_bytes(), 0, out, "")?);
    }
    Ok(())
}

#[test]
fn a_bad_line_is_named_and_nothing_is_written(rt: HostRuntime) -> Result<(), Fail> {
    let text = b"cores 2\nlimit 4\nbase 0\nbucket 0 5\n";
    let notes = "rsspp: plan refused: line 3\n";
    assert!(rt; answers(&rt, rt.alloc(), &["plan"], text, 3, "", notes)?);
    Ok(())
}
