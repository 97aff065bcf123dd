// Runs whose journals are worked by hand: which orders and proposals moved a bucket, and who
// worked which packets.
use crate::tests::answers;
use crate::tests::captures::{Frame, OTHER, SEGMENT, capture_of};
use std::alloc::Global;
use std::sync::Wait;
use std::test::Fail;
use std::thread::Threads;

// Six packets of one flow.
const SIX: [Frame<'static>; 6] = [
    (&SEGMENT, 60),
    (&SEGMENT, 70),
    (&SEGMENT, 80),
    (&SEGMENT, 60),
    (&SEGMENT, 70),
    (&SEGMENT, 80),
];

const TWO_MOVES: &str = "\
tcp 66.9.149.187:2794 > 161.142.100.80:1766 order 1784838720
total flows 1 packets 6 bytes 420
journal
table 0
order 2 0 1 moved 2
order 5 0 0 moved 5
custody 0 0 0 2
custody 0 1 2 5
custody 0 0 5 6
end
";

const ONE_IN_PASSAGE: &str = "\
tcp 66.9.149.187:2794 > 161.142.100.80:1766 order 1784838720
total flows 1 packets 6 bytes 420
journal
table 0
order 2 0 1 moved 2
order 4 0 0 passage 2 4 5
custody 0 0 0 2
custody 0 1 2 6
end
";

const EACH_OUTCOME: &str = "\
tcp 66.9.149.187:2794 > 161.142.100.80:1766 packets 3 bytes 180
total flows 1 packets 3 bytes 180
journal
table 0 0
order 0 1 1 placed
order 1 0 0 same
order 2 0 1 moved 2
order 2 0 0 passage 2 2 -
custody 0 0 0 2
custody 0 1 2 3
end
";

const ONE_ROUND: &str = "\
tcp 38.27.205.30:48228 > 209.142.163.6:2217 packets 1 bytes 60
tcp 66.9.149.187:2794 > 161.142.100.80:1766 packets 3 bytes 180
total flows 2 packets 4 bytes 240
journal
table 0 0
round 3 loads 2 1 base 1 0
propose 0 0 1 gain 4 moved 2
custody 0 0 0 2
custody 0 1 2 3
custody 1 0 0 1
end
";

const ONE_ROUND_BY_COSTS: &str = "\
tcp 38.27.205.30:48228 > 209.142.163.6:2217 order 640
tcp 66.9.149.187:2794 > 161.142.100.80:1766 order 59580
total flows 2 packets 4 bytes 820
journal
table 0 0
round 3 loads 2 11 base 11 0
propose 1 0 1 gain 143 passage 0 1 1
custody 0 0 0 3
custody 1 0 0 1
end
";

#[test]
fn two_handovers_keep_the_order(rt: HostRuntime) -> Result<(), Fail> {
    let capture = capture_of(rt.alloc(), &SIX)?;
    for (moves, text) in [("2:0:1,5:0:0", TWO_MOVES), ("2:0:1,4:0:0", ONE_IN_PASSAGE)] {
        let words = [
            "report",
            "--work",
            "order",
            "--cores",
            "2",
            "--buckets",
            "1",
            "--moves",
            moves,
            "--serial",
            "0",
            "--journal",
        ];
        assert!(rt; answers(&rt, rt.alloc(), &words, &capture, 0, text, "")?);
    }
    Ok(())
}

#[test]
fn orders_have_each_outcome(rt: HostRuntime) -> Result<(), Fail> {
    let capture = capture_of(rt.alloc(), &[(SEGMENT.as_slice(), 60); 3])?;
    let words = [
        "report",
        "--cores",
        "2",
        "--buckets",
        "2",
        "--table",
        "0,0",
        "--moves",
        "0:1:1,1:0:0,2:0:1,2:0:0",
        "--serial",
        "0",
        "--journal",
    ];
    assert!(rt; answers(&rt, rt.alloc(), &words, &capture, 0, EACH_OUTCOME, "")?);
    Ok(())
}

// Whether the serial run of number 0 writes this, over four packets of two flows, with a round
// behind the third.
fn round_answers<R: Threads + Wait + Sync>(
    rt: &R,
    alloc: Global,
    work: &str,
    original_of_other: u32,
    text: &str,
) -> Result<bool, Fail> {
    let frames = [
        (&SEGMENT[..], 60),
        (&SEGMENT, 60),
        (&OTHER, original_of_other),
        (&SEGMENT, 60),
    ];
    let capture = capture_of(alloc, &frames)?;
    let words = [
        "report",
        "--work",
        work,
        "--cores",
        "2",
        "--buckets",
        "2",
        "--table",
        "0,0",
        "--round",
        "3",
        "--serial",
        "0",
        "--journal",
    ];
    answers(rt, alloc, &words, &capture, 0, text, "")
}

#[test]
fn a_round_moves_a_bucket(rt: HostRuntime) -> Result<(), Fail> {
    assert!(rt; round_answers(&rt, rt.alloc(), "count", 60, ONE_ROUND)?);
    Ok(())
}

#[test]
fn a_round_weighs_costs(rt: HostRuntime) -> Result<(), Fail> {
    assert!(rt; round_answers(&rt, rt.alloc(), "order", 640, ONE_ROUND_BY_COSTS)?);
    Ok(())
}
