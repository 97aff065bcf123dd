ghost use Rattle.std.specs.Prelude.{◌≡◌, min, length, take, drop};
ghost use Rattle.traffic_gen.specs.Traffic.{file_header, record_of};

use crate::layout::FILE_HEADER;
use crate::record::{LONGEST_RECORD, put, put_record};
use std::marker::Model;

/// What was made and is still to be given: a part of the file header, or of one record. Contracts
/// see it as the list of its bytes.
#[derive(Drop)]
pub struct Ahead {
    bytes: [u8; LONGEST_RECORD],
    start: usize,
    end: usize,
}

impl Model for Ahead {
    ghost use Rattle.std.specs.Prelude.{◌≤◌, List, ℕ, take, drop};
    ghost use Rattle.traffic_gen.specs.declared.record.TheConstants.{LONGEST_RECORD};

    ghost Value = { List ℕ };

    ghost view = { λ a. drop a.start (take a.end a.bytes) };

    ghost invariant = { λ a. (a.start ≤ a.end) × (a.end ≤ LONGEST_RECORD) };
}

impl Ahead {
    /// The whole file header.
    pub fn of_header() -> Ahead
        ensures { result ≡ file_header }
    {
        let mut bytes = [0; LONGEST_RECORD];
        let end = put(&mut bytes, 0, &FILE_HEADER);
        Ahead {
            bytes,
            start: 0,
            end,
        }
    }

    /// Replaces what is there by the whole record at an index.
    pub fn set_record(&mut self, number: u32, index: u32)
        ensures { self.new ≡ record_of number index }
    {
        self.end = put_record(&mut self.bytes, number, index);
        self.start = 0;
    }

    /// How many bytes are there.
    pub fn left(&self) -> usize
        ensures { result ≡ length self.now }
    {
        self.end - self.start
    }

    /// Puts the first bytes at the front of `into`, as many as there are and fit, and answers how
    /// many.
    pub fn give(&mut self, into: &mut [u8]) -> usize
        ensures count { result ≡ min (length into.old) (length self.old) }
        ensures bytes { take result into.new ≡ take result self.old }
        ensures rest { self.new ≡ drop result self.old }
    {
        let count = into.len().min(self.end - self.start);
        into[..count].copy_from_slice(&self.bytes[self.start..self.start + count]);
        self.start += count;
        count
    }
}
