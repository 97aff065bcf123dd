// The limits of a plan.
ghost use Rattle.std.specs.Prelude.{◌≡◌, ◌^◌};

use crate::limits::FIRST_BUCKET_LINE;
use crate::number::{LONGEST_LINE, PLAN_DIGITS};
use crate::place::{LINE_FEED, SPACE};
use crate::{MOST_LOAD, MOST_PROPOSALS};

/// The limits of a round, with their numbers.
pub fn limits_are_stated()
    ensures load { MOST_LOAD ≡ 2 ^ 40 }
    ensures proposals { MOST_PROPOSALS ≡ 16 }
{}

/// The numbers of a plan text: its lines have at most 2,000 bytes and end with a line feed, their
/// parts stand between spaces, a number has at most 13 digits, and the buckets begin in line 4.
pub fn plan_texts_are_stated()
    ensures line { LONGEST_LINE ≡ 2_000 }
    ensures line_feed { LINE_FEED ≡ 0x0a }
    ensures space { SPACE ≡ 0x20 }
    ensures digits { PLAN_DIGITS ≡ 13 }
    ensures first_bucket { FIRST_BUCKET_LINE ≡ 4 }
{}
