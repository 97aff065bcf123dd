// The next proposal of a round, among all pairs of a bucket and a core.
ghost use Rattle.std.specs.Prelude.{◌≡◌, ◌<◌, if◌then◌else◌, ◌==◌, length, sum};
ghost use Rattle.std.specs.List.{list_any};
ghost use Rattle.balancer.specs.Better.{better};
ghost use Rattle.balancer.specs.Greedy.{may_leave, may_take, proposal, choices_of, choices, greatest};
ghost use Rattle.balancer.specs.Standing.{round_state_at, Stands};

use crate::standing::Standing;
use crate::weigh::total;
use indirection::Proposal;

// The first, unless the second gains more.
fn better(first: Option<Proposal>, second: Option<Proposal>) -> Option<Proposal>
    ensures { result ≡ better first second }
{
    match (first, second) {
        (Some(p), Some(q)) => Some(if q.gain <= p.gain { p } else { q }),
        (Some(p), None) => Some(p),
        (None, other) => other,
    }
}

/// Whether the bucket was proposed.
pub fn is_proposed(proposals: &[Proposal], bucket: u16) -> bool
    ensures { result ≡ list_any (λ p. p.bucket == bucket) proposals.now }
{
    proposals.iter().any(|p| p.bucket == bucket)
}

/// Whether the bucket may leave its core.
pub fn may_leave(s: &Standing<'_>, total: u64, bucket: u16) -> bool
    requires stands { Stands s.now }
    requires total { total ≡ sum s.now.carried.now }
    requires bucket { bucket < length s.now.owners.now }
    ensures { result ≡ may_leave (round_state_at s.now) bucket }
{
    let owner = s.owners[bucket as usize];
    if s.carried.len() as u64 * s.carried[owner as usize] <= total {
        return false;
    }
    if s.loads.bucket()[bucket as usize] == 0 {
        return false;
    }
    !is_proposed(s.proposals, bucket)
}

/// The proposal of a bucket that may leave its core to a core, where that may take it.
pub fn offer(s: &Standing<'_>, total: u64, bucket: u16, to: u8) -> Option<Proposal>
    requires stands { Stands s.now }
    requires total { total ≡ sum s.now.carried.now }
    requires bucket { bucket < length s.now.owners.now }
    requires to { to < length s.now.carried.now }
    ensures { result ≡ (if may_take (round_state_at s.now) bucket to then Some (proposal (round_state_at s.now) bucket to) else None) }
{
    let from = s.owners[bucket as usize];
    let load = s.loads.bucket()[bucket as usize];
    let carried = s.carried[to as usize];
    if total <= s.carried.len() as u64 * carried {
        return None;
    }
    let apart = s.carried[from as usize].saturating_sub(carried);
    if apart <= load {
        return None;
    }
    let gain = u128::from(load) * u128::from(apart - load);
    Some(Proposal {
        bucket,
        from,
        to,
        gain,
    })
}

// The best proposal of a bucket.
fn best_of(s: &Standing<'_>, total: u64, bucket: u16) -> Option<Proposal>
    requires stands { Stands s.now }
    requires total { total ≡ sum s.now.carried.now }
    requires bucket { bucket < length s.now.owners.now }
    ensures { result ≡ greatest (choices_of (round_state_at s.now) bucket) }
{
    if !may_leave(s, total, bucket) {
        return None;
    }
    let mut best = None;
    for to in 0..s.carried.len() as u8 {
        best = better(best, offer(s, total, bucket, to));
    }
    best
}

/// The best proposal of all pairs.
pub fn best(s: &Standing<'_>) -> Option<Proposal>
    requires { Stands s.now }
    ensures { result ≡ greatest (choices (round_state_at s.now)) }
{
    let total = total(s.carried);
    let mut best = None;
    for bucket in 0..s.owners.len() as u16 {
        best = better(best, best_of(s, total, bucket));
    }
    best
}
