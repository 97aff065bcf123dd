// The texts of the journals of four small runs.
ghost use Rattle.std.specs.Prelude.{◌≤◌, length, IfOk};
ghost use Rattle.flow_report.specs.JournalText.{HasWholeRounds};

use crate::{ReportFault, journal_text};
use bucket_table::Custody;
use indirection::{Journal, Loads, MoveOrder, Outcome, Proposal, Table};
use rss_base::MemorySink;
use std::alloc::Global;
use std::test::Fail;

// A journal over two cores with these orders, and what came of each.
fn journal_of(
    alloc: Global,
    owners: &[u8],
    orders: &[(MoveOrder, Outcome)],
) -> Result<Journal, Fail>
    requires some { 1 ≤ length owners.now }
    requires few { length owners.now ≤ 2 }
    requires orders { length orders.now ≤ 4 }
    ensures { IfOk result (λ j. HasWholeRounds j.entries) }
{
    let table = Table::of_list(alloc, 2, owners.len() as u16, owners)?;
    let mut journal = Journal::new(alloc, &table)?;
    journal.reserve_orders(orders.len() as u32)?;
    for (order, outcome) in orders {
        journal.push_order(*order, *outcome);
    }
    Ok(journal)
}

// A journal with one round, of one proposal that moved its bucket.
fn journal_of_a_round(alloc: Global) -> Result<Journal, Fail>
    ensures { IfOk result (λ j. HasWholeRounds j.entries) }
{
    let table = Table::of_list(alloc, 2, 2, &[0, 0])?;
    let mut journal = Journal::new(alloc, &table)?;
    let loads = Loads::of_lists([2, 1].to_vec(alloc)?, [1, 0].to_vec(alloc)?);
    let proposal = Proposal {
        bucket: 0,
        from: 0,
        to: 1,
        gain: 4,
    };
    journal.push_round(3, &loads, &[proposal])?;
    journal.push_outcome(Outcome::Moved { tail: 2 });
    Ok(journal)
}

fn order(at: u32, bucket: u16, to: u8) -> MoveOrder {
    MoveOrder { at, bucket, to }
}

fn moved(tail: u32) -> Outcome {
    Outcome::Moved { tail }
}

fn in_passage(tail: u32, sent: u32, word: Option<u64>) -> Outcome {
    Outcome::InPassage { tail, sent, word }
}

fn had(bucket: u16, core: u8, from: u32, to: u32) -> Custody {
    Custody {
        bucket,
        core,
        from,
        to,
    }
}

fn text_is(alloc: Global, journal: &Journal, custody: &[Custody], want: &[u8]) -> Result<bool, Fail>
    requires { HasWholeRounds journal.now.entries }
{
    let mut out = MemorySink::new(alloc, 500, Vec::new(alloc))?;
    let written = journal_text(alloc, journal, custody, &mut out);
    Ok(written == Ok(()) && out.bytes() == want)
}

#[test]
fn two_moves_are_two_lines(rt: HostRuntime) -> Result<(), Fail> {
    let orders = [(order(2, 0, 1), moved(2)), (order(5, 0, 0), moved(5))];
    let journal = journal_of(rt.alloc(), &[0], &orders)?;
    let custody = [had(0, 0, 0, 2), had(0, 1, 2, 5), had(0, 0, 5, 6)];
    let want =
        b"journal\ntable 0\norder 2 0 1 moved 2\norder 5 0 0 moved 5\ncustody 0 0 0 2\ncustody 0 1 2 5\ncustody 0 0 5 6\nend\n";
    assert!(rt; text_is(rt.alloc(), &journal, &custody, want)?);
    Ok(())
}

#[test]
fn a_passage_shows_the_word_that_was_met(rt: HostRuntime) -> Result<(), Fail> {
    let orders = [
        (order(2, 0, 1), moved(2)),
        (order(4, 0, 0), in_passage(2, 4, Some(5))),
    ];
    let journal = journal_of(rt.alloc(), &[0], &orders)?;
    let custody = [had(0, 0, 0, 2), had(0, 1, 2, 6)];
    let want =
        b"journal\ntable 0\norder 2 0 1 moved 2\norder 4 0 0 passage 2 4 5\ncustody 0 0 0 2\ncustody 0 1 2 6\nend\n";
    assert!(rt; text_is(rt.alloc(), &journal, &custody, want)?);
    Ok(())
}

#[test]
fn each_outcome_has_its_word(rt: HostRuntime) -> Result<(), Fail> {
    let orders = [
        (order(0, 1, 1), Outcome::Placed),
        (order(1, 0, 0), Outcome::Same),
        (order(2, 0, 1), moved(2)),
        (order(2, 0, 0), in_passage(2, 2, None)),
    ];
    let journal = journal_of(rt.alloc(), &[0, 0], &orders)?;
    let custody = [had(0, 0, 0, 2), had(0, 1, 2, 3)];
    let want =
        b"journal\ntable 0 0\norder 0 1 1 placed\norder 1 0 0 same\norder 2 0 1 moved 2\norder 2 0 0 passage 2 2 -\ncustody 0 0 0 2\ncustody 0 1 2 3\nend\n";
    assert!(rt; text_is(rt.alloc(), &journal, &custody, want)?);
    Ok(())
}

#[test]
fn a_round_stands_before_its_proposals(rt: HostRuntime) -> Result<(), Fail> {
    let journal = journal_of_a_round(rt.alloc())?;
    let custody = [had(0, 0, 0, 2), had(0, 1, 2, 3), had(1, 0, 0, 1)];
    let want =
        b"journal\ntable 0 0\nround 3 loads 2 1 base 1 0\npropose 0 0 1 gain 4 moved 2\ncustody 0 0 0 2\ncustody 0 1 2 3\ncustody 1 0 0 1\nend\n";
    assert!(rt; text_is(rt.alloc(), &journal, &custody, want)?);
    Ok(())
}

#[test]
fn a_failed_write_leaves_the_lines_before_it(rt: HostRuntime) -> Result<(), Fail> {
    let alloc = rt.alloc();
    let journal = journal_of_a_round(alloc)?;
    let custody = [had(0, 0, 0, 2), had(0, 1, 2, 3), had(1, 0, 0, 1)];
    let mut out = MemorySink::new(alloc, 500, [6].to_vec(alloc)?)?;
    let written = journal_text(alloc, &journal, &custody, &mut out);
    assert_eq!(rt; written, Err(ReportFault::WriteFault));
    let want =
        b"journal\ntable 0 0\nround 3 loads 2 1 base 1 0\npropose 0 0 1 gain 4 moved 2\ncustody 0 0 0 2\n";
    assert_eq!(rt; out.bytes(), want.as_slice());
    Ok(())
}
