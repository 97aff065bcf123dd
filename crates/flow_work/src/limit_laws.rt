// The limits of flows and of costs.
ghost use Rattle.std.specs.Prelude.{◌≡◌, ◌^◌, ◌-◌};

use crate::{MOST_COST, MOST_PACKETS};

/// The limits, with their numbers: the packets of a flow are counted in 32 bits, and a packet costs
/// 256 at most.
pub fn limits_are_stated()
    ensures packets { MOST_PACKETS ≡ 2 ^ 32 - 1 }
    ensures cost { MOST_COST ≡ 256 }
{}
