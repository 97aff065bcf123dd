// What the cores carry.
ghost use Rattle.std.specs.Prelude.{◌≡◌, ◌<◌, ◌≤◌, ◌*◌, ◌^◌, length, All, sum};
ghost use Rattle.balancer.specs.Imbalance.{core_loads, apart, imbalance};
ghost use Rattle.balancer.specs.Standing.{AreLoads};

use indirection::{Loads, MOST_BUCKETS, MOST_CORES};

/// Weighs the cores: the base of each, and the loads of its buckets.
pub fn weigh(carried: &mut [u64], loads: &Loads, owners: &[u8])
    requires loads { AreLoads (length carried.old) (length owners.now) loads.now }
    requires owners { All (λ owner. owner < length carried.old) owners.now }
    requires buckets { length owners.now ≤ MOST_BUCKETS }
    ensures value { carried.new ≡ core_loads (length carried.old) loads.now owners.now }
    ensures small { All (λ load. load ≤ 2 ^ 52) carried.new }
{
    carried.copy_from_slice(loads.base());
    for (bucket, owner) in owners.iter().enumerate() {
        carried[*owner as usize] += loads.bucket()[bucket];
    }
}

/// What all cores carry together.
pub fn total(carried: &[u64]) -> u64
    requires { sum carried.now < 2 ^ 64 }
    ensures { result ≡ sum carried.now }
{
    carried.iter().sum()
}

// How far a core's load is from an even share, as many times as there are cores.
fn deviation(cores: u64, load: u64, total: u64) -> u128
    requires cores { cores ≤ MOST_CORES }
    requires load { load ≤ 2 ^ 52 }
    requires total { total ≤ 64 * 2 ^ 52 }
    ensures value { result ≡ apart (cores * load) total }
    ensures small { result ≤ 64 * 2 ^ 52 }
{
    u128::from((cores * load).abs_diff(total))
}

/// The imbalance of what the cores carry.
pub fn imbalance(carried: &[u64]) -> u128
    requires few { length carried.now ≤ MOST_CORES }
    requires small { All (λ l. l ≤ 2 ^ 52) carried.now }
    ensures { result ≡ imbalance carried.now }
{
    let cores = carried.len() as u64;
    let total = total(carried);
    let mut sum = 0;
    for load in carried {
        let deviation = deviation(cores, *load, total);
        sum += deviation * deviation;
    }
    sum
}
