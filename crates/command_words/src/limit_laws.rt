// The limits of the command words.
ghost use Rattle.std.specs.Prelude.{◌≡◌, ◌^◌, ◌-◌};

use crate::{MOST_COUNT, MOST_DIGITS, MOST_NUMBER, MOST_PLACES};

/// The limits of the words, with their numbers: a number has at most 10 digits, a mode stands with
/// at most two values, at most 10,000,000 packets are generated, and the numbers of traffic and of a
/// serial run have 32 bits.
pub fn limits_are_stated()
    ensures digits { MOST_DIGITS ≡ 10 }
    ensures places { MOST_PLACES ≡ 3 }
    ensures count { MOST_COUNT ≡ 10_000_000 }
    ensures number { MOST_NUMBER ≡ 2 ^ 32 - 1 }
{}
