// The next proposal of a round, by search among the ranked buckets.
ghost use Rattle.std.specs.Prelude.{◌≡◌, ◌<◌, ◌≤◌, ◌+◌, ◌-◌, ℕ, if◌then◌else◌, length, sum, slice_index, Some, None};
ghost use Rattle.balancer.specs.Greedy.{allowed, proposal, choices, greatest};
ghost use Rattle.balancer.specs.Leading.{leading, is_beyond, IsLeading, IsLeast};
ghost use Rattle.balancer.specs.Ranking.{IsRanking};
ghost use Rattle.balancer.specs.Standing.{round_state_at, Stands};

use crate::choice::{may_leave, offer};
use crate::free::{first_free, last_free};
use crate::ranked::Ranked;
use crate::standing::Standing;
use crate::weigh::total;
use indirection::{MOST_CORES, Proposal};

// The first, unless the second gains more, or as much with a lower bucket.
fn leading(first: Option<Proposal>, second: Option<Proposal>) -> Option<Proposal>
    ensures { result ≡ leading first second }
{
    match (first, second) {
        (Some(p), Some(q)) => {
            let is_ahead = p.gain < q.gain || (p.gain == q.gain && q.bucket < p.bucket);
            Some(if is_ahead { q } else { p })
        }
        (Some(p), None) => Some(p),
        (None, other) => other,
    }
}

// The proposal of a bucket to a core, where the pair is allowed.
fn choice(s: &Standing<'_>, total: u64, bucket: u16, to: u8) -> Option<Proposal>
    requires stands { Stands s.now }
    requires total { total ≡ sum s.now.carried.now }
    requires bucket { bucket < length s.now.owners.now }
    requires to { to < length s.now.carried.now }
    ensures { result ≡ (if allowed (round_state_at s.now) bucket to then Some (proposal (round_state_at s.now) bucket to) else None) }
{
    if !may_leave(s, total, bucket) {
        return None;
    }
    offer(s, total, bucket, to)
}

// The best proposal to a core of the other's buckets with at least half of the difference.
fn best_above(
    s: &Standing<'_>,
    ranking: &[Ranked],
    total: u64,
    from: u8,
    to: u8,
    half: u64,
) -> Option<Proposal>
    requires stands { Stands s.now }
    requires ranking { IsRanking s.now.loads.now s.now.owners.now (round_state_at s.now).taken ranking.now }
    requires total { total ≡ sum s.now.carried.now }
    requires from { from < length s.now.carried.now }
    requires to { to < length s.now.carried.now }
    requires half { slice_index s.now.carried.now from - slice_index s.now.carried.now to ≤ half + half }
    ensures { IsLeading (round_state_at s.now) to (λ b. (slice_index s.now.owners.now b ≡ from) × (half ≤ slice_index s.now.loads.now.bucket b)) result }
{
    let bucket = first_free(s, ranking, from, half)?;
    choice(s, total, bucket, to)
}

// The best proposal to a core of the other's buckets with less than half of the difference.
fn best_below(
    s: &Standing<'_>,
    ranking: &[Ranked],
    total: u64,
    from: u8,
    to: u8,
    half: u64,
) -> Option<Proposal>
    requires stands { Stands s.now }
    requires ranking { IsRanking s.now.loads.now s.now.owners.now (round_state_at s.now).taken ranking.now }
    requires total { total ≡ sum s.now.carried.now }
    requires from { from < length s.now.carried.now }
    requires to { to < length s.now.carried.now }
    requires half { half + half ≤ slice_index s.now.carried.now from - slice_index s.now.carried.now to + 1 }
    ensures { IsLeading (round_state_at s.now) to (λ b. (slice_index s.now.owners.now b ≡ from) × (slice_index s.now.loads.now.bucket b < half)) result }
{
    let load = last_free(s, ranking, from, half)?;
    let bucket = first_free(s, ranking, from, load)?;
    choice(s, total, bucket, to)
}

// The best proposal from a core to another: of the buckets whose load is nearest to half of the
// difference, from above and from below.
fn best_between(
    s: &Standing<'_>,
    ranking: &[Ranked],
    total: u64,
    from: u8,
    to: u8,
) -> Option<Proposal>
    requires stands { Stands s.now }
    requires ranking { IsRanking s.now.loads.now s.now.owners.now (round_state_at s.now).taken ranking.now }
    requires total { total ≡ sum s.now.carried.now }
    requires from { from < length s.now.carried.now }
    requires to { to < length s.now.carried.now }
    ensures { IsLeading (round_state_at s.now) to (λ b. slice_index s.now.owners.now b ≡ from) result }
{
    let apart = s.carried[from as usize].saturating_sub(s.carried[to as usize]);
    let half = apart - apart / 2;
    leading(
        best_above(s, ranking, total, from, to, half),
        best_below(s, ranking, total, from, to, half),
    )
}

// Whether the proposal gains more than any bucket would between cores that are so far apart.
fn is_beyond(best: Option<Proposal>, apart: u64) -> bool
    ensures { result ≡ is_beyond best apart }
{
    let apart = u128::from(apart);
    match best {
        Some(proposal) => apart * apart / 4 < proposal.gain,
        None => false,
    }
}

// The best proposal to a core from the cores up to this one, by the best from those before it.
// Where the core carries no more than an even share, or where even half of the difference would
// gain less, there is nothing to look for.
fn best_up_to(
    s: &Standing<'_>,
    ranking: &[Ranked],
    total: u64,
    from: u8,
    to: u8,
    best: Option<Proposal>,
) -> Option<Proposal>
    requires stands { Stands s.now }
    requires ranking { IsRanking s.now.loads.now s.now.owners.now (round_state_at s.now).taken ranking.now }
    requires total { total ≡ sum s.now.carried.now }
    requires from { from < length s.now.carried.now }
    requires to { to < length s.now.carried.now }
    requires best { IsLeading (round_state_at s.now) to (λ b. slice_index s.now.owners.now b < from) best }
    ensures { IsLeading (round_state_at s.now) to (λ b. slice_index s.now.owners.now b < from + 1) result }
{
    let carried = s.carried[from as usize];
    if s.carried.len() as u64 * carried <= total {
        return best;
    }
    let apart = carried.saturating_sub(s.carried[to as usize]);
    if is_beyond(best, apart) {
        return best;
    }
    leading(best, best_between(s, ranking, total, from, to))
}

// The lowest core of those that carry the least.
fn least_core(carried: &[u64]) -> u8
    requires some { 0 < length carried.now }
    requires few { length carried.now ≤ MOST_CORES }
    ensures { IsLeast carried.now (length carried.now) result }
{
    let mut least = 0;
    for core in 1..carried.len() as u8 {
        if carried[core as usize] < carried[least as usize] {
            least = core;
        }
    }
    least
}

/// The best proposal of all pairs. Each bucket gains most where it goes to a core that carries
/// the least, so the pairs with the lowest of these cores are the only ones that can win.
pub fn best_ranked(s: &Standing<'_>, ranking: &[Ranked]) -> Option<Proposal>
    requires stands { Stands s.now }
    requires ranking { IsRanking s.now.loads.now s.now.owners.now (round_state_at s.now).taken ranking.now }
    ensures { result ≡ greatest (choices (round_state_at s.now)) }
{
    if s.carried.is_empty() {
        return None;
    }
    let total = total(s.carried);
    let to = least_core(s.carried);
    let mut best = None;
    for from in 0..s.carried.len() as u8 {
        best = best_up_to(s, ranking, total, from, to, best);
    }
    best
}
