// The limits of a reading.
ghost use Rattle.std.specs.Prelude.{◌≡◌, ◌^◌, ◌-◌};

use crate::MOST_RECORDS;
use crate::format::LONGEST;

/// The limits of a reading, with their numbers: a record has at most 262,144 captured bytes, and
/// records are numbered in 32 bits.
pub fn limits_are_stated()
    ensures longest { LONGEST ≡ 262_144 }
    ensures records { MOST_RECORDS ≡ 2 ^ 32 - 1 }
{}
