// The buckets by rank: by owner, then by load, then by number.
ghost use Rattle.std.specs.Prelude.{◌≡◌, ◌≤◌, ◌<◌, ℕ, [], length, vec_capacity, slice_index_or, true, false};
ghost use Rattle.balancer.specs.Ranking.{all_ranked, IsInOrder, IsRanking, is_below};

use crate::ranked::Ranked;
use indirection::{Loads, MOST_BUCKETS};

// Puts the buckets into the room, by number.
fn list_buckets(room: &mut Vec<Ranked>, loads: &Loads, owners: &[u8])
    requires loads { length loads.now.bucket ≡ length owners.now }
    requires buckets { length owners.now ≤ MOST_BUCKETS }
    requires room { length owners.now ≤ vec_capacity room.old }
    ensures all { room.new.items ≡ all_ranked loads.now owners.now (length owners.now) }
    ensures room { vec_capacity room.new ≡ vec_capacity room.old }
{
    room.clear();
    for bucket in 0..owners.len() as u16 {
        room.push_reserved(Ranked {
            owner: owners[bucket as usize],
            load: loads.bucket()[bucket as usize],
            bucket,
        });
    }
}

/// Ranks the buckets in the room. It takes no memory.
pub fn rank(room: &mut Vec<Ranked>, loads: &Loads, owners: &[u8])
    requires loads { length loads.now.bucket ≡ length owners.now }
    requires buckets { length owners.now ≤ MOST_BUCKETS }
    requires room { length owners.now ≤ vec_capacity room.old }
    ensures ranking { IsRanking loads.now owners.now [] room.new.items }
    ensures room { vec_capacity room.new ≡ vec_capacity room.old }
{
    list_buckets(room, loads, owners);
    room.sort_unstable_by_key(|ranked| (ranked.owner, ranked.load, ranked.bucket));
}

/// How many buckets are ranked before each of this core with at least this load.
pub fn place_of(ranking: &[Ranked], core: u8, load: u64) -> usize
    requires { IsInOrder ranking.now }
    ensures place { result ≤ length ranking.now }
    ensures below { (k : ℕ) (d : Ranked) → k < result → is_below core load (slice_index_or ranking.now k d) ≡ true }
    ensures behind { (k : ℕ) (d : Ranked) → result ≤ k → k < length ranking.now → is_below core load (slice_index_or ranking.now k d) ≡ false }
{
    ranking.partition_point(
        |ranked: &Ranked| -> bool
            ensures { result ≡ is_below core load ranked.now }
        { ranked.owner < core || (ranked.owner == core && ranked.load < load) },
    )
}
