// The numbers of a line.
ghost use Rattle.std.specs.Prelude.{◌≡◌, ◌≤◌, ◌<◌, [], length, vec_capacity, true};
ghost use Rattle.std.specs.List.{list_all};
ghost use Rattle.balancer.specs.Lines.{parts};
ghost use Rattle.balancer.specs.Numbers.{is_digit, digits_value, number_of, numbers_of, numbers_behind, Gives};

use crate::place::{SPACE, around, place_of};

/// The most digits of a number.
pub const PLAN_DIGITS: usize = 13;

/// The most bytes of a line, without its line feed.
pub const LONGEST_LINE: usize = 2_000;

// Whether all are digits.
fn all_digits(part: &[u8]) -> bool
    ensures { result ≡ list_all is_digit part.now }
{
    part.iter().all(|byte| 48 <= *byte && *byte <= 57)
}

// The number that digits spell.
fn digits_value(digits: &[u8]) -> u64
    requires digits { list_all is_digit digits.now ≡ true }
    requires few { length digits.now ≤ PLAN_DIGITS }
    ensures { result ≡ digits_value digits.now }
{
    let mut value = 0;
    for digit in digits {
        value = value * 10 + u64::from(*digit - b'0');
    }
    value
}

/// The number of a part.
pub(crate) fn number_of(part: &[u8]) -> Option<u64>
    ensures { result ≡ number_of part.now }
{
    if part.is_empty() || part.len() > PLAN_DIGITS {
        return None;
    }
    if !all_digits(part) {
        return None;
    }
    Some(digits_value(part))
}

// Puts the numbers of the parts of a text into the list, where all parts are numbers.
fn push_numbers(text: &[u8], numbers: &mut Vec<u64>) -> bool
    requires empty { numbers.old.items ≡ [] }
    requires room { length text.now < vec_capacity numbers.old }
    ensures value { Gives result (numbers_of (parts text.now)) numbers.new.items }
    ensures room { vec_capacity numbers.new ≡ vec_capacity numbers.old }
{
    let mut rest = text;
    let mut end = place_of(SPACE, rest);
    'parts: while end < rest.len() {
        let (part, behind) = around(end, rest);
        let Some(number) = number_of(part) else {
            return false;
        };
        numbers.push_reserved(number);
        rest = behind;
        end = place_of(SPACE, rest);
    }
    let Some(number) = number_of(rest) else {
        return false;
    };
    numbers.push_reserved(number);
    true
}

/// Puts the numbers of a line behind its word into the list, and answers whether the line has this
/// form. The list keeps its room.
pub(crate) fn numbers_behind(word: &[u8], line: &[u8], numbers: &mut Vec<u64>) -> bool
    requires room { LONGEST_LINE < vec_capacity numbers.old }
    ensures value { Gives result (numbers_behind word.now line.now) numbers.new.items }
    ensures room { vec_capacity numbers.new ≡ vec_capacity numbers.old }
{
    numbers.clear();
    if line.len() > LONGEST_LINE || !line.starts_with(word) {
        return false;
    }
    let rest = &line[word.len()..];
    if rest.is_empty() {
        return true;
    }
    if rest[0] != SPACE {
        return false;
    }
    push_numbers(&rest[1..], numbers)
}
