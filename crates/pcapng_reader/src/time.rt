// The time of a record.
ghost use Rattle.std.specs.Prelude.{◌≡◌, ◌<◌, ◌≤◌, ◌^◌, ◌*◌, ◌/◌};
ghost use Rattle.pcapng_reader.specs.Time.{units, nanos_of};

use crate::format::{LATEST, MICROSECONDS, NANOS_PER_MICRO, NANOS_PER_SECOND, POWERS_OF_TWO};

// A power of ten from this one on is above all times in nanoseconds.
const MANY_DIGITS: u8 = 29;

// So many units of time in nanoseconds, rounded down.
fn whole_nanos(ticks: u64, resolution: u8) -> u128
    ensures { result ≡ ticks * NANOS_PER_SECOND / units resolution }
{
    let nanos = u128::from(ticks) * u128::from(NANOS_PER_SECOND);
    if resolution >= POWERS_OF_TWO {
        nanos / 2u128.pow(u32::from(resolution - POWERS_OF_TWO))
    } else if resolution < MANY_DIGITS {
        nanos / 10u128.pow(u32::from(resolution))
    } else {
        0
    }
}

/// So many units of time in nanoseconds, as far as a classic capture can tell. Most captures count
/// microseconds, for which nothing has to be divided.
pub fn nanos_by(ticks: u64, resolution: u8) -> u64
    ensures value { result ≡ nanos_of ticks resolution }
    ensures within { result ≤ LATEST }
{
    if resolution == MICROSECONDS && ticks <= LATEST / NANOS_PER_MICRO {
        return ticks * NANOS_PER_MICRO;
    }
    whole_nanos(ticks, resolution).min(u128::from(LATEST)) as u64
}
