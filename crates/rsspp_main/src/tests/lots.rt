// Runs in threads over generated traffic, with options and orders drawn anew for each.
ghost use Rattle.std.specs.Prelude.{◌<◌};

use crate::tests::schedules::one_thread_report;
use crate::tests::{WHOLE, hashing, run, run_with};
use flow_work::OrderFold;
use rss_base::OpenGate;
use std::alloc::Global;
use std::test::Fail;

/// Numbers as if drawn by lot, but the same ones each time.
#[derive(Drop)]
struct Lots {
    state: u32,
}

impl Lots {
    /// A number below this one.
    fn below(&mut self, end: u32) -> u32
        requires end { 0 < end }
        ensures below { result < end }
    {
        self.state = self
            .state
            .wrapping_mul(1_664_525)
            .wrapping_add(1_013_904_223);
        (self.state >> 16) % end
    }
}

// Thirty orders, which move buckets below this number to cores below that one.
fn orders(alloc: Global, lots: &mut Lots, buckets: u32, cores: u32) -> Result<String, Fail>
    requires buckets { 0 < buckets }
    requires cores { 0 < cores }
{
    let mut at = 0u32;
    let mut text = String::from_str(alloc, "0:0:0")?;
    for _ in 0..29 {
        at = at.saturating_add(lots.below(7));
        let bucket = lots.below(buckets);
        let core = lots.below(cores);
        let order = format!(in alloc; ",{at}:{bucket}:{core}")?;
        text.push_str(order.as_str())?;
    }
    Ok(text)
}

// The words of a report in threads, of at most 8 cores, 32 buckets and 17 cells.
fn words(alloc: Global, lots: &mut Lots) -> Result<Vec<String>, Fail> {
    let cores = 1 + lots.below(8);
    let buckets = 1 << lots.below(6);
    let pool = 2 + lots.below(16);
    let round = 1 + lots.below(50);
    let limit = lots.below(17);
    let moves = orders(alloc, lots, buckets, cores)?;
    let text = format!(in alloc;
        "report --work order --cores {cores} --buckets {buckets} --pool {pool} --round {round} --limit {limit} --moves {}",
        moves.as_str()
    )?;
    let mut words = Vec::new(alloc);
    for word in text.split(' ') {
        words.push(String::from_str(alloc, word)?)?;
    }
    Ok(words)
}

#[test]
fn a_hundred_runs_report_as_one_thread(rt: HostRuntime) -> Result<(), Fail> {
    let mut lots = Lots { state: 1 };
    for number in 0..100u32 {
        let number = format!(in rt.alloc(); "{number}")?;
        let make = ["make", "100", number.as_str()];
        let made = run(&rt, rt.alloc(), &make, &[], WHOLE)?;
        let text = one_thread_report(rt.alloc(), &OrderFold, &made.out)?;
        let words = words(rt.alloc(), &mut lots)?;
        let ran = run_with(
            &rt,
            rt.alloc(),
            &words,
            Some(hashing(7)),
            &made.out,
            WHOLE,
            &OpenGate,
        )?;
        assert!(rt; ran.status == 0 && ran.is_told);
        assert!(rt; ran.out.as_slice() == text.as_slice());
    }
    Ok(())
}
