ghost use Rattle.std.specs.Prelude.{◌≡◌, ◌≤◌, ◌<◌, ◌+◌, ◌*◌, ◌==◌, ◌&&◌, not, length, slice_index, drop, replicate, IfOk, [], false, true, vec_capacity};
ghost use Rattle.balancer.specs.Moves.{AreMoves};
ghost use Rattle.balancer.specs.Standing.{AreLoads};
ghost use Rattle.dispatch_loop.specs.Asks.{front_of, rest_of};
ghost use Rattle.dispatch_loop.specs.Does.{more_at};

use crate::Options;
use crate::limits::MOST_LIMIT;
use balancer::{Policy, PolicyName};
use flow_work::{MOST_COST, MOST_PACKETS};
use indirection::{Loads, Proposal, Table};
use rss_base::NoMemory;
use std::alloc::Global;

/// What rounds of balancing are made of.
#[derive(Drop)]
pub(crate) struct Rounds<B> {
    /// Packets from one round to the next.
    pub(crate) length: u32,
    /// The most moves of a round.
    pub(crate) limit: u8,
    /// The packets since the last round.
    pub(crate) since: u32,
    /// The costs of each bucket's packets since the last round.
    pub(crate) loads: Loads,
    /// Which policy it is.
    pub(crate) name: PolicyName,
    pub(crate) policy: B,
    /// What the policy proposed last.
    pub(crate) proposals: Vec<Proposal>,
    /// How many proposals of the last round were tried.
    pub(crate) tried: usize,
    /// Whether memory was refused to a round. No further one is made then.
    pub(crate) short: bool,
}

impl<B: Drop> Rounds<B> {
    /// No round was made. The table of a run has so many cores and buckets.
    pub(crate) fn new(alloc: Global, options: &Options, policy: B) -> Result<Rounds<B>, NoMemory>
        ensures rounds { IfOk result (λ r. (r.length ≡ options.now.round) × (r.limit ≡ options.now.limit) × (r.since ≡ 0) × (r.tried ≡ 0) × (r.short ≡ false)) }
        ensures loads { IfOk result (λ r. r.loads ≡ record { bucket = replicate (length options.now.start.owners) 0; base = replicate options.now.start.cores 0 }) }
        ensures policy { IfOk result (λ r. (r.name ≡ options.now.policy) × (r.policy ≡ policy)) }
        ensures proposals { IfOk result (λ r. (r.proposals.items ≡ []) × (MOST_LIMIT ≤ vec_capacity r.proposals)) }
    {
        let loads = Loads::new(alloc, options.start.buckets(), options.start.cores())?;
        let Ok(proposals) = Vec::with_capacity(alloc, MOST_LIMIT as usize) else {
            return Err(NoMemory);
        };
        Ok(Rounds {
            length: options.round,
            limit: options.limit,
            since: 0,
            loads,
            name: options.policy,
            policy,
            proposals,
            tried: 0,
            short: false,
        })
    }

    /// Whether a round is due.
    pub(crate) fn is_due(&self) -> bool
        ensures { result ≡ (not self.now.short && (self.now.since == self.now.length)) }
    {
        !self.short && self.since == self.length
    }

    /// The next proposal that wasn't tried yet.
    pub(crate) fn next(&self) -> Option<Proposal>
        ensures { result ≡ front_of (drop self.now.tried self.now.proposals.items) }
    {
        self.proposals.get(self.tried).copied()
    }

    /// Counts a packet, and adds its cost to those of its bucket.
    pub(crate) fn count(&mut self, bucket: u16, cost: u32)
        requires range { bucket < length self.old.loads.bucket }
        requires few { slice_index self.old.loads.bucket bucket ≤ MOST_COST * self.old.since }
        requires cost { cost ≤ MOST_COST }
        requires room { self.old.since < MOST_PACKETS }
        ensures loads { self.new.loads ≡ record self.old.loads { bucket = more_at bucket cost self.old.loads.bucket } }
        ensures since { self.new.since ≡ self.old.since + 1 }
        ensures rest { self.new ≡ record self.old { loads = self.new.loads; since = self.new.since } }
    {
        let before = self.loads.bucket()[bucket as usize];
        self.loads.set_bucket(bucket, before + u64::from(cost));
        self.since += 1;
    }

    /// Forgets the packets that were counted.
    pub(crate) fn clear(&mut self)
        ensures loads { self.new.loads ≡ record self.old.loads { bucket = replicate (length self.old.loads.bucket) 0 } }
        ensures since { self.new.since ≡ 0 }
        ensures rest { self.new ≡ record self.old { loads = self.new.loads; since = self.new.since } }
    {
        self.loads.clear_buckets();
        self.since = 0;
    }

    /// The proposals that the policy made last are to be tried.
    pub(crate) fn begin(&mut self)
        ensures { self.new ≡ record self.old { loads = record self.old.loads { bucket = replicate (length self.old.loads.bucket) 0 }; since = 0; tried = 0 } }
    {
        self.clear();
        self.tried = 0;
    }

    /// No proposal is to be tried, and no further round is made.
    pub(crate) fn refuse(&mut self)
        ensures { self.new ≡ record self.old { loads = record self.old.loads { bucket = replicate (length self.old.loads.bucket) 0 }; since = 0; tried = length self.old.proposals.items; short = true } }
    {
        self.clear();
        self.tried = self.proposals.len();
        self.short = true;
    }
}

/// Makes the proposals of a round, in the list that has room for them.
pub(crate) fn propose<B: Policy>(
    policy: &mut B,
    proposals: &mut Vec<Proposal>,
    loads: &Loads,
    table: &Table,
    limit: u8,
)
    requires cores { table.now.cores ≡ (B.stated policy.old).cores }
    requires buckets { length table.now.owners ≡ (B.stated policy.old).buckets }
    requires loads { AreLoads (B.stated policy.old).cores (B.stated policy.old).buckets loads.now }
    requires limit { limit ≤ MOST_LIMIT }
    requires room { MOST_LIMIT ≤ vec_capacity proposals.old }
    ensures made { proposals.new.items ≡ B.proposals (B.stated policy.old) loads.now table.now.owners limit }
    ensures moves { AreMoves table.now.cores (length table.now.owners) proposals.new.items }
    ensures few { length proposals.new.items ≤ limit }
    ensures room { vec_capacity proposals.old ≤ vec_capacity proposals.new }
    ensures stated { B.stated policy.new ≡ B.stated policy.old }
{
    let made = policy.propose(loads, table, limit);
    proposals.clear();
    let Ok(()) = proposals.extend_from_slice(made) else {
        unreachable!()
    };
}
