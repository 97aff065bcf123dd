// The limits and the defaults of a run, with their numbers.
ghost use Rattle.std.specs.Prelude.{◌≡◌, ◌^◌, ◌-◌};

use crate::{
    DEFAULT_BUCKETS, DEFAULT_CORES, DEFAULT_LIMIT, DEFAULT_PACKETS, DEFAULT_POOL, DEFAULT_ROUND,
    LEAST_PACKETS, LEAST_POOL, LEAST_ROUND, MOST_LIMIT, MOST_ORDERS, MOST_POOL, MOST_ROUND,
};
use balancer::MOST_PROPOSALS;
use flow_work::MOST_PACKETS;
use handover_core::{FEWEST_CELLS, MOST_CELLS, MOST_PACKETS as MOST_SENT};
use pcap_reader::MOST_RECORDS;

/// The limits of a run, with their numbers.
pub fn limits_are_stated()
    ensures orders { MOST_ORDERS ≡ 4_096 }
    ensures least_round { LEAST_ROUND ≡ 1 }
    ensures most_round { MOST_ROUND ≡ 1_000_000 }
    ensures limit { MOST_LIMIT ≡ 16 }
    ensures least_pool { LEAST_POOL ≡ 2 }
    ensures most_pool { MOST_POOL ≡ 4_096 }
    ensures least_packets { LEAST_PACKETS ≡ 1 }
    ensures most_packets { MOST_PACKETS ≡ 2 ^ 32 - 1 }
{}

/// The defaults of a run, with their numbers.
pub fn defaults_are_stated()
    ensures cores { DEFAULT_CORES ≡ 4 }
    ensures buckets { DEFAULT_BUCKETS ≡ 128 }
    ensures round { DEFAULT_ROUND ≡ 1_000 }
    ensures limit { DEFAULT_LIMIT ≡ 4 }
    ensures pool { DEFAULT_POOL ≡ 1_024 }
    ensures packets { DEFAULT_PACKETS ≡ 100_000_000 }
{}

/// Limits that stand in several crates are the same numbers: a round may be limited to what the
/// balancer can propose, a pool has as many cells as the machine's, and flows, captures and the
/// machine have as many packets as a run.
pub fn limits_agree()
    ensures proposals { MOST_LIMIT ≡ MOST_PROPOSALS }
    ensures fewest_cells { LEAST_POOL ≡ FEWEST_CELLS }
    ensures most_cells { MOST_POOL ≡ MOST_CELLS }
    ensures records { MOST_RECORDS ≡ MOST_PACKETS }
    ensures sent { MOST_SENT ≡ MOST_PACKETS }
{}
