ghost use Rattle.std.specs.Prelude.{◌≡◌, ◌≤◌, IfSome};
ghost use Rattle.std.specs.Char.{is_ascii_digit};
ghost use Rattle.std.specs.List.{list_all};
ghost use Rattle.command_words.specs.Values.{bucket_count_in, is_number, number_in, number_within};

use crate::MOST_DIGITS;
use indirection::MOST_BUCKETS;

fn are_digits(text: &str) -> bool
    ensures { result ≡ list_all is_ascii_digit text.now }
{
    text.as_bytes().iter().all(|digit| digit.is_ascii_digit())
}

fn is_number(text: &str) -> bool
    ensures { result ≡ is_number text.now }
{
    if text.is_empty() {
        return false;
    }
    if text.len() > MOST_DIGITS {
        return false;
    }
    are_digits(text)
}

// The number that the digits make.
fn number(text: &str) -> Option<u64>
    ensures { result ≡ number_in text.now }
{
    if !is_number(text) {
        return None;
    }
    text.parse::<u64>().ok()
}

/// The number that the text spells, where it is in these bounds.
pub fn number_between(low: u64, high: u64, text: &str) -> Option<u64>
    ensures value { result ≡ number_within low high text.now }
    ensures bounds { IfSome result (λ n. (low ≤ n) × (n ≤ high)) }
{
    let number = number(text)?;
    if low <= number && number <= high {
        Some(number)
    } else {
        None
    }
}

/// The number of buckets that the text spells, where it is a power of two up to 2,048.
pub fn bucket_count(text: &str) -> Option<u16>
    ensures value { result ≡ bucket_count_in text.now }
    ensures bounds { IfSome result (λ n. (1 ≤ n) × (n ≤ MOST_BUCKETS)) }
{
    let number = number(text)?;
    match number {
        1 | 2 | 4 | 8 | 16 | 32 | 64 | 128 | 256 | 512 | 1_024 | 2_048 => Some(number as u16),
        _ => None,
    }
}
