/// Decimal digits that a number may have.
pub const MOST_DIGITS: usize = 10;

/// Positional words that may stand: a mode and its two values.
pub const MOST_PLACES: u8 = 3;

/// The most packets that may be generated.
pub const MOST_COUNT: u32 = 10_000_000;

/// The greatest number of a traffic, and the greatest serial number.
pub const MOST_NUMBER: u32 = u32::MAX;
