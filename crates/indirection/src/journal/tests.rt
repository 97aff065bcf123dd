// The journals of four small runs: built, and read back by position.
ghost use Rattle.std.specs.Prelude.{◌≡◌, ◌≤◌, ◌<◌, [], length, IfOk};

use crate::{Entry, Journal, Loads, MoveOrder, OrderEntry, Outcome, Proposal, Table, owner_at};
use std::alloc::Global;
use std::test::Fail;

// A journal over two cores with room for so many orders.
fn journal_of(alloc: Global, owners: &[u8], orders: u32) -> Result<Journal, Fail>
    requires some { 1 ≤ length owners.now }
    requires few { length owners.now ≤ 2 }
    ensures { IfOk result (λ j. (j.start.owners ≡ owners.now) × (j.entries ≡ []) × (j.room ≡ orders)) }
{
    let table = Table::of_list(alloc, 2, owners.len() as u16, owners)?;
    let mut journal = Journal::new(alloc, &table)?;
    journal.reserve_orders(orders)?;
    Ok(journal)
}

fn order(at: u32, bucket: u16, to: u8, outcome: Outcome) -> OrderEntry {
    OrderEntry {
        order: MoveOrder { at, bucket, to },
        outcome,
    }
}

fn in_passage(tail: u32, sent: u32, word: Option<u64>) -> Outcome {
    Outcome::InPassage { tail, sent, word }
}

fn orders_are(journal: &Journal, want: &[OrderEntry]) -> bool {
    let entries = journal.entries();
    entries.len() == want.len()
        && entries.iter().zip(want).all(|(entry, want)| match entry {
            Entry::Order(order) => order == want,
            Entry::Round(_) => false,
        })
}

// The bucket has these owners, each from its position on.
fn owners_are(journal: &Journal, bucket: u16, owners: &[(u32, u8)]) -> bool
    requires { bucket < length journal.now.start.owners }
{
    for (at, owner) in owners {
        if owner_at(journal, bucket, *at) != *owner {
            return false;
        }
    }
    true
}

#[test]
fn a_bucket_moves_there_and_back(rt: HostRuntime) -> Result<(), Fail> {
    let mut journal = journal_of(rt.alloc(), &[0], 2)?;
    let first = order(2, 0, 1, Outcome::Moved { tail: 2 });
    let second = order(5, 0, 0, Outcome::Moved { tail: 5 });
    journal.push_order(first.order, first.outcome);
    journal.push_order(second.order, second.outcome);
    assert!(rt; orders_are(&journal, &[first, second]));
    assert!(rt;
        owners_are(
            &journal,
            0,
            &[(0, 0), (1, 0), (2, 1), (4, 1), (5, 0), (6, 0)]
        )
    );
    assert_eq!(rt; journal.room(), 0);
    Ok(())
}

#[test]
fn a_bucket_in_passage_stays(rt: HostRuntime) -> Result<(), Fail> {
    let mut journal = journal_of(rt.alloc(), &[0], 2)?;
    let first = order(2, 0, 1, Outcome::Moved { tail: 2 });
    let second = order(4, 0, 0, in_passage(2, 4, Some(5)));
    journal.push_order(first.order, first.outcome);
    journal.push_order(second.order, second.outcome);
    assert!(rt; orders_are(&journal, &[first, second]));
    assert!(rt; owners_are(&journal, 0, &[(1, 0), (2, 1), (4, 1), (5, 1)]));
    Ok(())
}

#[test]
fn orders_come_to_each_outcome(rt: HostRuntime) -> Result<(), Fail> {
    let mut journal = journal_of(rt.alloc(), &[0, 0], 4)?;
    let placed = order(0, 1, 1, Outcome::Placed);
    let same = order(1, 0, 0, Outcome::Same);
    let moved = order(2, 0, 1, Outcome::Moved { tail: 2 });
    let stayed = order(2, 0, 0, in_passage(2, 2, None));
    journal.push_order(placed.order, placed.outcome);
    journal.push_order(same.order, same.outcome);
    journal.push_order(moved.order, moved.outcome);
    journal.push_order(stayed.order, stayed.outcome);
    assert!(rt; orders_are(&journal, &[placed, same, moved, stayed]));
    assert!(rt; owners_are(&journal, 0, &[(0, 0), (1, 0), (2, 1), (3, 1)]));
    assert!(rt; owners_are(&journal, 1, &[(0, 1), (1, 1), (2, 1), (3, 1)]));
    Ok(())
}

const PROPOSAL: Proposal = Proposal {
    bucket: 0,
    from: 0,
    to: 1,
    gain: 4,
};

// The journal is one round at position 3, of these loads and that proposal, which moved its bucket.
fn is_that_round(journal: &Journal, loads: &Loads) -> bool {
    match journal.entries() {
        [Entry::Round(round)] => {
            round.at() == 3
                && round.loads().bucket() == loads.bucket()
                && round.loads().base() == loads.base()
                && round.proposals() == [PROPOSAL].as_slice()
                && round.outcomes() == [Outcome::Moved { tail: 2 }].as_slice()
        }
        _ => false,
    }
}

#[test]
fn a_round_moves_a_bucket(rt: HostRuntime) -> Result<(), Fail> {
    let alloc = rt.alloc();
    let mut journal = journal_of(alloc, &[0, 0], 1)?;
    let loads = Loads::of_lists(vec![in alloc; 2, 1]?, vec![in alloc; 1, 0]?);
    journal.push_round(3, &loads, &[PROPOSAL])?;
    journal.push_outcome(Outcome::Moved { tail: 2 });
    assert!(rt; is_that_round(&journal, &loads));
    assert!(rt; owners_are(&journal, 0, &[(2, 0), (3, 1), (4, 1)]));
    assert!(rt; owners_are(&journal, 1, &[(2, 0), (3, 0), (4, 0)]));
    assert_eq!(rt; journal.room(), 1);
    Ok(())
}
