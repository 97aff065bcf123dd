// The limits of a machine.
ghost use Rattle.std.specs.Prelude.{◌≡◌, ◌^◌, ◌-◌};

use crate::{FEWEST_CELLS, MOST_CELLS, MOST_PACKETS};

/// The limits of a machine, with their numbers: its pool has 2 to 4,096 cells, and its packets are
/// counted in 32 bits.
pub fn limits_are_stated()
    ensures fewest { FEWEST_CELLS ≡ 2 }
    ensures most { MOST_CELLS ≡ 4_096 }
    ensures packets { MOST_PACKETS ≡ 2 ^ 32 - 1 }
{}
