// The limit of traffic that is made.
ghost use Rattle.std.specs.Prelude.{◌≡◌};

use crate::MOST_RECORDS;

/// The limit of a capture that is made, with its number.
pub fn limits_are_stated()
    ensures { MOST_RECORDS ≡ 10_000_000 }
{}
