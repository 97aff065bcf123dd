ghost use Rattle.std.specs.Prelude.{◌≡◌, ◌≤◌, ℕ, length, take, min, IfOk, Some, Ok};
ghost use Rattle.std.specs.Io.KnownBytes.{ReadConsumes};
ghost use Rattle.rss_base.specs.Faults.{HasCause};
ghost use Rattle.traffic_gen.specs.Source.{left_of, made_over, gave};

use crate::layout::MOST_RECORDS;
use crate::upcoming::Upcoming;
use rss_base::{Failed, Source};
use std::marker::Model;

/// A source that gives the traffic of a number, makes it as it is read, and never fails.
#[derive(Drop)]
pub struct TrafficSource {
    upcoming: Upcoming,
    given: u64,
}

impl Model for TrafficSource {
    ghost use Rattle.traffic_gen.specs.Source.{TrafficView};
    ghost use Rattle.traffic_gen.specs.Upcoming.{StandsBehind};

    ghost Value = { TrafficView };

    ghost view = { λ s. record { count = s.upcoming.count; number = s.upcoming.number; given = s.given } };

    ghost invariant = { λ s. StandsBehind s.upcoming s.given };
}

impl TrafficSource {
    /// A source of so many records of a number's traffic.
    pub fn new(count: u32, number: u32) -> TrafficSource
        requires { count ≤ MOST_RECORDS }
        ensures { result ≡ record { count = count; number = number; given = 0 } }
    {
        TrafficSource {
            upcoming: Upcoming::new(count, number),
            given: 0,
        }
    }

    /// Puts the next bytes at the front of `into`, as many as are left and fit, and answers how
    /// many.
    pub fn give(&mut self, into: &mut [u8]) -> usize
        ensures given { result ≡ min (length into.old) (length (left_of self.old)) }
        ensures bytes { take result into.new ≡ take result (left_of self.old) }
        ensures after { self.new ≡ gave self.old result }
    {
        let count = self.upcoming.give(into);
        self.given += count as u64;
        count
    }
}

impl Source for TrafficSource {
    ghost left = { λ s. Some (left_of s) };

    ghost faults = { λ _. 0 };

    ghost Origin = { ℕ × ℕ };

    ghost origin = { made_over };

    fn read(&mut self, into: &mut [u8]) -> Result<usize, Failed>
        ensures bound { IfOk result (λ n. n ≤ length into.new) }
        ensures bytes { ReadConsumes (Some (left_of self.old)) (Some (left_of self.new)) result into.new }
        ensures cause { HasCause 0 0 result }
        ensures origin { made_over self.new ≡ made_over self.old }
        ensures whole { result ≡ Ok (min (length into.old) (length (left_of self.old))) }
        ensures after { IfOk result (λ n. self.new ≡ gave self.old n) }
    {
        Ok(self.give(into))
    }
}
