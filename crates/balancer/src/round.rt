// A round of proposals.
ghost use Rattle.std.specs.Prelude.{◌≡◌, ◌≢◌, ◌≤◌, ◌<◌, ◌+◌, ◌-◌, ◌^◌, ◌++◌, ◌∷◌, [], length, vec_capacity, slice_index, slice_set, Some};
ghost use Rattle.balancer.specs.Greedy.{choices, greatest, greedy, moved, opening};
ghost use Rattle.balancer.specs.Ranking.{IsRanking};
ghost use Rattle.balancer.specs.Standing.{IsWeighed, round_state_of};

use crate::choice::best;
use crate::nearest::best_ranked;
use crate::ranked::Ranked;
use crate::standing::Standing;
use indirection::{Loads, Proposal};

// Gives the bucket to the other core, which carries its load from then on.
fn make_move(carried: &mut [u64], owners: &mut [u8], load: u64, p: &Proposal)
    requires bucket { p.now.bucket < length owners.old }
    requires from { p.now.from < length carried.old }
    requires to { p.now.to < length carried.old }
    requires some { load ≤ slice_index carried.old p.now.from }
    requires apart { p.now.from ≢ p.now.to }
    requires fits { slice_index carried.old p.now.to + load < 2 ^ 64 }
    ensures owners { owners.new ≡ slice_set owners.old p.now.bucket p.now.to }
    ensures carried { carried.new ≡ slice_set (slice_set carried.old p.now.from (slice_index carried.old p.now.from - load)) p.now.to (slice_index carried.old p.now.to + load) }
{
    carried[p.from as usize] -= load;
    carried[p.to as usize] += load;
    owners[p.bucket as usize] = p.to;
}

// Makes the best proposal.
fn take_step(
    carried: &mut [u64],
    owners: &mut [u8],
    proposals: &mut Vec<Proposal>,
    loads: &Loads,
    proposal: Proposal,
)
    requires weighed { IsWeighed (round_state_of (length carried.old) loads.now owners.old proposals.old.items) carried.old }
    requires best { greatest (choices (round_state_of (length carried.old) loads.now owners.old proposals.old.items)) ≡ Some proposal }
    requires room { length proposals.old.items < vec_capacity proposals.old }
    ensures weighed { IsWeighed (round_state_of (length carried.new) loads.now owners.new proposals.new.items) carried.new }
    ensures moved { round_state_of (length carried.new) loads.now owners.new proposals.new.items ≡ moved (round_state_of (length carried.old) loads.now owners.old proposals.old.items) proposal }
    ensures proposals { proposals.new.items ≡ proposals.old.items ++ proposal ∷ [] }
    ensures room { vec_capacity proposals.new ≡ vec_capacity proposals.old }
{
    let load = loads.bucket()[proposal.bucket as usize];
    make_move(carried, owners, load, &proposal);
    proposals.push_reserved(proposal);
}

/// Makes a round of up to so many proposals, with what the cores carry and the owners after each,
/// by the plain choice among all pairs.
pub fn run_plain_round(
    carried: &mut [u64],
    owners: &mut [u8],
    proposals: &mut Vec<Proposal>,
    loads: &Loads,
    limit: u8,
)
    requires weighed { IsWeighed (opening (length carried.old) loads.now owners.old) carried.old }
    requires empty { proposals.old.items ≡ [] }
    requires room { limit ≤ vec_capacity proposals.old }
    ensures proposals { proposals.new.items ≡ greedy limit (opening (length carried.old) loads.now owners.old) }
    ensures room { vec_capacity proposals.new ≡ vec_capacity proposals.old }
{
    'plain: for _ in 0..limit {
        let standing = Standing {
            loads,
            owners,
            carried,
            proposals,
        };
        let Some(proposal) = best(&standing) else {
            return;
        };
        take_step(carried, owners, proposals, loads, proposal);
    }
}

/// Makes a round of up to so many proposals, with what the cores carry and the owners after each,
/// by search in the ranking of the buckets before the round.
pub fn run_round(
    carried: &mut [u64],
    owners: &mut [u8],
    proposals: &mut Vec<Proposal>,
    ranking: &[Ranked],
    loads: &Loads,
    limit: u8,
)
    requires weighed { IsWeighed (opening (length carried.old) loads.now owners.old) carried.old }
    requires ranking { IsRanking loads.now owners.old [] ranking.now }
    requires empty { proposals.old.items ≡ [] }
    requires room { limit ≤ vec_capacity proposals.old }
    ensures proposals { proposals.new.items ≡ greedy limit (opening (length carried.old) loads.now owners.old) }
    ensures room { vec_capacity proposals.new ≡ vec_capacity proposals.old }
{
    'round: for _ in 0..limit {
        let standing = Standing {
            loads,
            owners,
            carried,
            proposals,
        };
        let Some(proposal) = best_ranked(&standing, ranking) else {
            return;
        };
        take_step(carried, owners, proposals, loads, proposal);
    }
}
