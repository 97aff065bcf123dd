ghost use Rattle.std.specs.Prelude.{◌≡◌, ◌≤◌, IfOk, Some, option_map};
ghost use Rattle.command_words.specs.Reading.{number_or, read_mode, read_serial, read_values};
ghost use Rattle.command_words.specs.Taken.{given_in};
ghost use Rattle.command_words.specs.Values.{no_values, two_numbers};

use crate::mode::mode_named;
use crate::numbers::number_between;
use crate::values::Values;
use crate::{MOST_COUNT, MOST_NUMBER, Mode, OptionName, WordFault};
use clap::ArgMatches;

/// The text of an option's value, where it is given.
pub fn value<'a>(matches: &ArgMatches<'a>, which: OptionName) -> Option<&'a str>
    ensures { option_map (λ s. s.now) result ≡ (given_in matches.now).options which }
{
    matches.get_str(which.text())
}

/// The number that an option gives, or its default.
pub fn option_number(
    matches: &ArgMatches<'_>,
    which: OptionName,
    default: u64,
    low: u64,
    high: u64,
) -> Result<u64, WordFault>
    requires least { low ≤ default }
    requires most { default ≤ high }
    ensures value { result ≡ number_or which default low high (given_in matches.now) }
    ensures bounds { IfOk result (λ n. (low ≤ n) × (n ≤ high)) }
{
    match value(matches, which) {
        None => Ok(default),
        Some(text) => number_between(low, high, text).ok_or(WordFault::Option { which }),
    }
}

/// The mode that the first positional word names.
pub fn mode(matches: &ArgMatches<'_>) -> Result<Mode, WordFault>
    ensures { result ≡ read_mode (given_in matches.now) }
{
    match matches.get_str("MODE") {
        None => Err(WordFault::Mode),
        Some(name) => mode_named(name).ok_or(WordFault::Mode),
    }
}

fn two_numbers(count: &str, number: &str) -> Option<Values>
    ensures { result ≡ two_numbers (Some count.now) (Some number.now) }
{
    let count = number_between(0, u64::from(MOST_COUNT), count)? as u32;
    let number = number_between(0, u64::from(MOST_NUMBER), number)? as u32;
    Some(Values { count, number })
}

fn both_given(count: Option<&str>, number: Option<&str>) -> Option<Values>
    ensures { result ≡ two_numbers (option_map (λ s. s.now) count.entry) (option_map (λ s. s.now) number.entry) }
{
    match (count, number) {
        (Some(count), Some(number)) => two_numbers(count, number),
        _ => None,
    }
}

fn none_given(count: Option<&str>, number: Option<&str>) -> Option<Values>
    ensures { result ≡ no_values (option_map (λ s. s.now) count.entry) (option_map (λ s. s.now) number.entry) }
{
    match (count, number) {
        (None, None) => Some(Values {
            count: 0,
            number: 0,
        }),
        _ => None,
    }
}

/// The values of the mode.
pub fn values(mode: Mode, matches: &ArgMatches<'_>) -> Result<Values, WordFault>
    ensures { result ≡ read_values mode (given_in matches.now) }
{
    let count = matches.get_str("COUNT");
    let number = matches.get_str("NUMBER");
    let values = match mode {
        Mode::Make | Mode::Demo => both_given(count, number),
        Mode::Report | Mode::Hash | Mode::Plan => none_given(count, number),
    };
    values.ok_or(WordFault::Values)
}

/// The number of the schedule, where the run is to be serial.
pub fn serial(matches: &ArgMatches<'_>) -> Result<Option<u32>, WordFault>
    ensures { result ≡ read_serial (given_in matches.now) }
{
    match value(matches, OptionName::Serial) {
        None => Ok(None),
        Some(text) => match number_between(0, u64::from(MOST_NUMBER), text) {
            None => Err(WordFault::Option {
                which: OptionName::Serial,
            }),
            Some(number) => Ok(Some(number as u32)),
        },
    }
}

/// Whether the journal is asked for.
pub fn journal(matches: &ArgMatches<'_>) -> bool
    ensures { result ≡ (given_in matches.now).journal }
{
    match matches.get_str("journal") {
        None => false,
        Some(text) => text == "true",
    }
}
