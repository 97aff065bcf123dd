// A line of a plan text, by its form.
ghost use Rattle.std.specs.Prelude.{◌≡◌, ◌≤◌, ◌<◌, length, All, IfOk, vec_capacity, nat_le, true};
ghost use Rattle.std.specs.List.{list_all};
ghost use Rattle.std.specs.Io.KnownBytes.{prepend_known};
ghost use Rattle.balancer.specs.Numbers.{numbers_behind};
ghost use Rattle.balancer.specs.PlanForm.{one_within, bucket_within};
ghost use Rattle.balancer.specs.PlanReading.{ReadsNumbers, ReadsAs, ReadsBase, SpellsBucket, ReadsBucket, HasReadCause};

use crate::PlanFault;
use crate::limits::MOST_LOAD;
use crate::line::{NextLine, next_line};
use crate::number::{LONGEST_LINE, numbers_behind};
use crate::window::Window;
use rss_base::Source;
use std::alloc::Global;

/// Reads the line of a number, and puts the numbers behind its word into the list. False says that
/// there is no line.
pub fn read_numbers<S: Source>(
    window: &mut Window,
    source: &mut S,
    numbers: &mut Vec<u64>,
    word: &[u8],
    line: u32,
) -> Result<bool, PlanFault>
    requires room { LONGEST_LINE < vec_capacity numbers.old }
    ensures comes { ReadsNumbers word.now line (prepend_known window.old (S.left source.old)) (prepend_known window.new (S.left source.new)) (S.left source.new) numbers.new.items result }
    ensures room { vec_capacity numbers.new ≡ vec_capacity numbers.old }
    ensures cause { HasReadCause (S.faults source.old) (S.faults source.new) result }
    ensures origin { S.origin source.new ≡ S.origin source.old }
{
    match next_line(window, source) {
        Ok(NextLine::Line { length, used }) => {
            if !numbers_behind(word, &window.bytes()[..length], numbers) {
                return Err(PlanFault::BadLine { line });
            }
            window.consume(used);
            Ok(true)
        }
        Ok(NextLine::TooLong) => Err(PlanFault::BadLine { line }),
        Ok(NextLine::End) => Ok(false),
        Err(_) => Err(PlanFault::ReadFault),
    }
}

// The one number of a list, where it is within the bounds.
fn one_within(low: u64, high: u64, numbers: &[u64]) -> Option<u64>
    ensures { result ≡ one_within low high (Some numbers.now) }
{
    match numbers {
        [number] if low <= *number && *number <= high => Some(*number),
        _ => None,
    }
}

/// Reads the line of a number, which has one number behind its word, within the bounds.
pub fn read_one<S: Source>(
    window: &mut Window,
    source: &mut S,
    numbers: &mut Vec<u64>,
    word: &[u8],
    line: u32,
    low: u64,
    high: u64,
) -> Result<u64, PlanFault>
    requires room { LONGEST_LINE < vec_capacity numbers.old }
    ensures comes { ReadsAs (λ l. one_within low high (numbers_behind word.now l)) line (prepend_known window.old (S.left source.old)) (prepend_known window.new (S.left source.new)) result }
    ensures within { IfOk result (λ n. (low ≤ n) × (n ≤ high)) }
    ensures room { vec_capacity numbers.new ≡ vec_capacity numbers.old }
    ensures cause { HasReadCause (S.faults source.old) (S.faults source.new) result }
    ensures origin { S.origin source.new ≡ S.origin source.old }
{
    match read_numbers(window, source, numbers, word, line) {
        Ok(true) => match one_within(low, high, numbers) {
            Some(number) => Ok(number),
            None => Err(PlanFault::BadLine { line }),
        },
        Ok(false) => Err(PlanFault::BadLine { line }),
        Err(fault) => Err(fault),
    }
}

// Whether none is above the limit of a load.
fn all_loads(numbers: &[u64]) -> bool
    ensures value { result ≡ list_all (λ n. nat_le n MOST_LOAD) numbers.now }
    ensures all { result ≡ true → All (λ n. n ≤ MOST_LOAD) numbers.now }
{
    numbers.iter().all(|number| *number <= MOST_LOAD)
}

/// Reads the third line, which has the base of each core behind its word.
pub fn read_base<S: Source>(
    alloc: Global,
    window: &mut Window,
    source: &mut S,
    numbers: &mut Vec<u64>,
    cores: u8,
) -> Result<Vec<u64>, PlanFault>
    requires room { LONGEST_LINE < vec_capacity numbers.old }
    ensures comes { ReadsBase cores (prepend_known window.old (S.left source.old)) (prepend_known window.new (S.left source.new)) result }
    ensures within { IfOk result (λ base. (length base.items ≡ cores) × All (λ n. n ≤ MOST_LOAD) base.items) }
    ensures room { vec_capacity numbers.new ≡ vec_capacity numbers.old }
    ensures cause { HasReadCause (S.faults source.old) (S.faults source.new) result }
    ensures origin { S.origin source.new ≡ S.origin source.old }
{
    match read_numbers(window, source, numbers, b"base", 3) {
        Ok(true) => {}
        Ok(false) => return Err(PlanFault::BadLine { line: 3 }),
        Err(fault) => return Err(fault),
    }
    if numbers.len() != cores as usize || !all_loads(numbers) {
        return Err(PlanFault::BadLine { line: 3 });
    }
    match numbers.to_vec(alloc) {
        Ok(base) => Ok(base),
        Err(_) => Err(PlanFault::NoMemory),
    }
}

// The owner and the load of a bucket, where they are within the limits.
fn bucket_within(cores: u8, numbers: &[u64]) -> Option<(u8, u64)>
    ensures { SpellsBucket cores (bucket_within cores (Some numbers.now)) result }
{
    match numbers {
        [owner, load] if *owner < u64::from(cores) && *load <= MOST_LOAD => {
            Some((*owner as u8, *load))
        }
        _ => None,
    }
}

/// Reads the line of a number, which has the owner and the load of a bucket behind its word.
/// `None` says that there is no line.
pub fn read_bucket<S: Source>(
    window: &mut Window,
    source: &mut S,
    numbers: &mut Vec<u64>,
    cores: u8,
    line: u32,
) -> Result<Option<(u8, u64)>, PlanFault>
    requires room { LONGEST_LINE < vec_capacity numbers.old }
    ensures comes { ReadsBucket cores line (prepend_known window.old (S.left source.old)) (prepend_known window.new (S.left source.new)) (S.left source.new) result }
    ensures room { vec_capacity numbers.new ≡ vec_capacity numbers.old }
    ensures cause { HasReadCause (S.faults source.old) (S.faults source.new) result }
    ensures origin { S.origin source.new ≡ S.origin source.old }
{
    match read_numbers(window, source, numbers, b"bucket", line) {
        Ok(true) => match bucket_within(cores, numbers) {
            Some(bucket) => Ok(Some(bucket)),
            None => Err(PlanFault::BadLine { line }),
        },
        Ok(false) => Ok(None),
        Err(fault) => Err(fault),
    }
}
