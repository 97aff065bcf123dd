ghost use Rattle.std.specs.Prelude.{◌≡◌, ◌≢◌, ◌<◌, ◌≤◌, ◌+◌, ◌*◌, length, slice_index, replicate, IfOk};
ghost use Rattle.dispatch_loop.specs.Does.{more_at};
ghost use Rattle.dispatch_loop.specs.Decided.{IsSettled, decided_owners, decided_starts};

use flow_work::{MOST_COST, MOST_PACKETS};
use indirection::{Outcome, Table};
use rss_base::NoMemory;
use std::alloc::Global;

/// Who has each bucket, and what was sent.
#[derive(Drop)]
pub(crate) struct Routing {
    /// The owners now.
    pub(crate) table: Table,
    /// For each bucket, the place at which its newest stint starts.
    pub(crate) starts: Vec<u32>,
    /// For each bucket, how many of its packets were sent.
    pub(crate) counts: Vec<u32>,
    /// How many packets were sent.
    pub(crate) sent: u32,
    /// For each core, the costs of the packets that were sent to it.
    pub(crate) sent_to: Vec<u64>,
}

impl Routing {
    /// Nothing was sent.
    pub(crate) fn new(alloc: Global, start: &Table) -> Result<Routing, NoMemory>
        ensures table { IfOk result (λ d. d.table ≡ start.now) }
        ensures starts { IfOk result (λ d. d.starts.items ≡ replicate (length start.now.owners) 0) }
        ensures counts { IfOk result (λ d. d.counts.items ≡ replicate (length start.now.owners) 0) }
        ensures sent { IfOk result (λ d. d.sent ≡ 0) }
        ensures sent_to { IfOk result (λ d. d.sent_to.items ≡ replicate start.now.cores 0) }
    {
        let table = start.copy(alloc)?;
        let Ok(starts) = vec![in alloc; 0; start.buckets() as usize] else {
            return Err(NoMemory);
        };
        let Ok(counts) = vec![in alloc; 0; start.buckets() as usize] else {
            return Err(NoMemory);
        };
        let Ok(sent_to) = vec![in alloc; 0; start.cores() as usize] else {
            return Err(NoMemory);
        };
        Ok(Routing {
            table,
            starts,
            counts,
            sent: 0,
            sent_to,
        })
    }

    /// What comes of asking that a bucket goes to a core, where no look at its word is needed.
    pub(crate) fn settle(&self, bucket: u16, to: u8) -> Option<Outcome>
        requires owners { bucket < length self.now.table.owners }
        requires starts { bucket < length self.now.starts.items }
        requires counts { bucket < length self.now.counts.items }
        ensures { IsSettled (slice_index self.now.table.owners bucket) to (slice_index self.now.counts.items bucket) (slice_index self.now.starts.items bucket) result }
    {
        if self.table.owner(bucket) == to {
            return Some(Outcome::Same);
        }
        let sent = self.counts[bucket as usize];
        let tail = self.starts[bucket as usize];
        if sent == 0 {
            return Some(Outcome::Placed);
        }
        if sent == tail {
            return Some(Outcome::InPassage {
                tail,
                sent,
                word: None,
            });
        }
        None
    }

    /// Gives a bucket to a core, where the outcome says so.
    pub(crate) fn decide(&mut self, bucket: u16, to: u8, outcome: Outcome)
        requires owners { bucket < length self.old.table.owners }
        requires starts { bucket < length self.old.starts.items }
        requires to { to < self.old.table.cores }
        ensures table { self.new.table ≡ record self.old.table { owners = decided_owners self.old.table.owners bucket to outcome } }
        ensures starts { self.new.starts.items ≡ decided_starts self.old.starts.items bucket outcome }
        ensures rest { self.new ≡ record self.old { table = self.new.table; starts = self.new.starts } }
    {
        match outcome {
            Outcome::Moved { tail } => {
                self.table.set(bucket, to);
                self.starts[bucket as usize] = tail;
            }
            Outcome::Placed => self.table.set(bucket, to),
            Outcome::Same | Outcome::InPassage { .. } => {}
        }
    }

    /// Counts a packet of a bucket, and adds its cost to those of its owner.
    pub(crate) fn count(&mut self, bucket: u16, owner: u8, cost: u32)
        requires counts { bucket < length self.old.counts.items }
        requires cores { owner < length self.old.sent_to.items }
        requires few { slice_index self.old.counts.items bucket ≤ self.old.sent }
        requires fewer { slice_index self.old.sent_to.items owner ≤ MOST_COST * self.old.sent }
        requires cost { cost ≤ MOST_COST }
        requires room { self.old.sent < MOST_PACKETS }
        ensures counts { self.new.counts.items ≡ more_at bucket 1 self.old.counts.items }
        ensures sent { self.new.sent ≡ self.old.sent + 1 }
        ensures sent_to { self.new.sent_to.items ≡ more_at owner cost self.old.sent_to.items }
        ensures rest { self.new ≡ record self.old { counts = self.new.counts; sent = self.new.sent; sent_to = self.new.sent_to } }
    {
        self.counts[bucket as usize] += 1;
        self.sent += 1;
        self.sent_to[owner as usize] += u64::from(cost);
    }
}
