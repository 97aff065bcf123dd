ghost use Rattle.std.specs.Prelude.{◌≡◌, ◌≤◌, [], length, IfOk};
ghost use Rattle.balancer.specs.BalancerView.{stated_by};
ghost use Rattle.balancer.specs.Greedy.{opening, greedy_round, Lowers};
ghost use Rattle.balancer.specs.Moves.{AreMoves};
ghost use Rattle.balancer.specs.Standing.{AreLoads};
ghost use Rattle.balancer.specs.Afterwards.{StaysMade};
ghost use Rattle.balancer.specs.Policies.{proposed_greedily};

use crate::Policy;
use crate::limits::MOST_PROPOSALS;
use crate::ranked::Ranked;
use crate::ranking::rank;
use crate::round::{run_plain_round, run_round};
use crate::weigh::weigh;
use indirection::{Loads, MOST_BUCKETS, MOST_CORES, Proposal, Table};
use rss_base::NoMemory;
use std::alloc::Global;
use std::marker::Model;

/// Proposes rounds of moves, for tables of so many cores and buckets.
#[derive(Drop)]
pub struct Balancer {
    owners: Vec<u8>,
    carried: Vec<u64>,
    ranking: Vec<Ranked>,
    proposals: Vec<Proposal>,
}

impl Model for Balancer {
    ghost use Rattle.std.specs.Prelude.{◌≤◌, length, vec_capacity};
    ghost use Rattle.balancer.specs.declared.limits.TheConstants.{MOST_PROPOSALS};
    ghost use Rattle.balancer.specs.BalancerView.{BalancerView};

    ghost Value = { BalancerView };

    ghost view = { λ b. record { cores = length b.carried.items; buckets = length b.owners.items; proposals = b.proposals.items } };

    ghost invariant = { λ b. (MOST_PROPOSALS ≤ vec_capacity b.proposals) × (length b.owners.items ≤ vec_capacity b.ranking) };
}

impl Balancer {
    ghost use Rattle.std.specs.Borrow.{sem};

    /// A balancer with room for the greatest round, so that no later call takes memory.
    pub fn new(alloc: Global, cores: u8, buckets: u16) -> Result<Balancer, NoMemory>
        requires some_core { 1 ≤ cores }
        requires cores { cores ≤ MOST_CORES }
        requires some_bucket { 1 ≤ buckets }
        requires buckets { buckets ≤ MOST_BUCKETS }
        ensures { IfOk result (λ b. b ≡ record { cores = cores; buckets = buckets; proposals = [] }) }
    {
        let Ok(owners) = vec![in alloc; 0; buckets as usize] else {
            return Err(NoMemory);
        };
        let Ok(carried) = vec![in alloc; 0; cores as usize] else {
            return Err(NoMemory);
        };
        let Ok(ranking) = Vec::with_capacity(alloc, buckets as usize) else {
            return Err(NoMemory);
        };
        let Ok(proposals) = Vec::with_capacity(alloc, MOST_PROPOSALS as usize) else {
            return Err(NoMemory);
        };
        Ok(Balancer {
            owners,
            carried,
            ranking,
            proposals,
        })
    }

    // Makes the round.
    fn make_round(&mut self, loads: &Loads, table: &Table, limit: u8)
        requires cores { table.now.cores ≡ self.old.cores }
        requires buckets { length table.now.owners ≡ self.old.buckets }
        requires loads { AreLoads self.old.cores self.old.buckets loads.now }
        requires limit { limit ≤ MOST_PROPOSALS }
        ensures { self.new ≡ record self.old { proposals = greedy_round table.now.cores limit loads.now table.now.owners } }
    {
        self.owners.copy_from_slice(table.owners());
        self.proposals.clear();
        weigh(&mut self.carried, loads, &self.owners);
        rank(&mut self.ranking, loads, &self.owners);
        run_round(
            &mut self.carried,
            &mut self.owners,
            &mut self.proposals,
            &self.ranking,
            loads,
            limit,
        );
    }

    /// Makes the round by the plain choice among all pairs.
    pub(crate) fn make_plain_round(&mut self, loads: &Loads, table: &Table, limit: u8)
        requires cores { table.now.cores ≡ self.old.cores }
        requires buckets { length table.now.owners ≡ self.old.buckets }
        requires loads { AreLoads self.old.cores self.old.buckets loads.now }
        requires limit { limit ≤ MOST_PROPOSALS }
        ensures { self.new ≡ record self.old { proposals = greedy_round table.now.cores limit loads.now table.now.owners } }
    {
        self.owners.copy_from_slice(table.owners());
        self.proposals.clear();
        weigh(&mut self.carried, loads, &self.owners);
        run_plain_round(
            &mut self.carried,
            &mut self.owners,
            &mut self.proposals,
            loads,
            limit,
        );
    }

    /// The proposals of the round that was made last.
    pub fn proposals(&self) -> &[Proposal]
        ensures { result.now ≡ self.now.proposals }
    {
        &self.proposals
    }

    /// The proposals of a round, by the loads and the table before it: the greedy round. Each
    /// lowers the imbalance by twice the square of the number of cores times its gain, and each
    /// gain is at least 1. It takes no memory.
    pub fn propose(&mut self, loads: &Loads, table: &Table, limit: u8) -> &[Proposal]
        requires cores { table.now.cores ≡ self.old.cores }
        requires buckets { length table.now.owners ≡ self.old.buckets }
        requires loads { AreLoads self.old.cores self.old.buckets loads.now }
        requires limit { limit ≤ MOST_PROPOSALS }
        ensures value { result.now ≡ greedy_round table.now.cores limit loads.now table.now.owners }
        ensures moves { AreMoves table.now.cores (length table.now.owners) result.now }
        ensures lowers { Lowers (opening table.now.cores loads.now table.now.owners) result.now }
        ensures* stays { sem 𝓛 (StaysMade self.entry result.now) }
    {
        self.make_round(loads, table, limit);
        self.proposals()
    }
}

impl Policy for Balancer {
    ghost stated = { stated_by };

    ghost proposals = { proposed_greedily };

    fn propose(&mut self, loads: &Loads, table: &Table, limit: u8) -> &[Proposal] {
        Balancer::propose(self, loads, table, limit)
    }
}
