// The limits of a table.
ghost use Rattle.std.specs.Prelude.{◌≡◌};

use crate::{MOST_BUCKETS, MOST_CORES};

/// The limits of a table, with their numbers.
pub fn limits_are_stated()
    ensures cores { MOST_CORES ≡ 64 }
    ensures buckets { MOST_BUCKETS ≡ 2048 }
{}
