// Buckets that were not proposed yet, found in the ranking by their load.
ghost use Rattle.std.specs.Prelude.{◌≡◌, length};
ghost use Rattle.balancer.specs.Ranking.{IsRanking, IsFirstFree, IsLastFree};
ghost use Rattle.balancer.specs.Standing.{round_state_at};

use crate::choice::is_proposed;
use crate::ranked::Ranked;
use crate::ranking::place_of;
use crate::standing::Standing;

/// Of the core's buckets that were not proposed yet and have at least this load, the lowest of
/// the least load.
pub fn first_free(s: &Standing<'_>, ranking: &[Ranked], core: u8, load: u64) -> Option<u16>
    requires ranking { IsRanking s.now.loads.now s.now.owners.now (round_state_at s.now).taken ranking.now }
    ensures { IsFirstFree (round_state_at s.now) core load result }
{
    let place = place_of(ranking, core, load);
    for rank in place..ranking.len() {
        let ranked = ranking[rank];
        if !is_proposed(s.proposals, ranked.bucket) {
            if ranked.owner != core {
                return None;
            }
            return Some(ranked.bucket);
        }
    }
    None
}

/// The greatest load, below this one, of the core's buckets that were not proposed yet.
pub fn last_free(s: &Standing<'_>, ranking: &[Ranked], core: u8, load: u64) -> Option<u64>
    requires ranking { IsRanking s.now.loads.now s.now.owners.now (round_state_at s.now).taken ranking.now }
    ensures { IsLastFree (round_state_at s.now) core load result }
{
    let place = place_of(ranking, core, load);
    for passed in 0..place {
        let below = ranking[place - 1 - passed];
        if !is_proposed(s.proposals, below.bucket) {
            if below.owner != core {
                return None;
            }
            return Some(below.load);
        }
    }
    None
}
