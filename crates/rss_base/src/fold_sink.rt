ghost use Rattle.std.specs.Prelude.{◌≡◌, ◌≤◌, [], length, take, fold, Ok, IfOk, OnErr};
ghost use Rattle.rss_base.specs.Faults.{HasCause};
ghost use Rattle.rss_base.specs.Fold.{Sums, folded_with, sum_with};
ghost use Rattle.rss_base.specs.Written.{Gets};

use crate::{Failed, Sink};
use std::marker::Model;

/// A sink that never fails and keeps no byte: it tells the length of what was written, and a sum of
/// it, which other texts may have too.
#[derive(Clone, Copy, Debug)]
pub struct FoldSink {
    /// In bytes. It stays at the greatest `u64`.
    count: u64,
    /// From 0: each byte is added to 31 times the sum so far, and 32 bits are kept.
    value: u32,
}

impl Model for FoldSink {
    ghost use Rattle.rss_base.specs.Fold.{Folded};

    ghost Value = { Folded };

    ghost view = { λ s. record { count = s.count; value = s.value } };

    ghost inverse = { λ s. record { count = s.count; value = s.value } };
}

// The sum with one byte more behind it.
fn with_byte(sum: u32, byte: u8) -> u32
    ensures { result ≡ sum_with sum byte }
{
    ((31 * u64::from(sum) + u64::from(byte)) % (1 << 32)) as u32
}

// The sum with more bytes behind it.
fn with_bytes(before: u32, piece: &[u8]) -> u32
    ensures { result ≡ fold sum_with before piece.now }
{
    let mut sum = before;
    for byte in piece {
        sum = with_byte(sum, *byte);
    }
    sum
}

impl FoldSink {
    /// A sink to which nothing was written.
    pub fn new() -> FoldSink
        ensures { result ≡ record { count = 0; value = 0 } }
    {
        FoldSink { count: 0, value: 0 }
    }

    /// How many bytes were written, or the greatest `u64` where there were more.
    pub fn length(&self) -> u64
        ensures { result ≡ self.now.count }
    {
        self.count
    }

    /// The sum of what was written.
    pub fn sum(&self) -> u32
        ensures { result ≡ self.now.value }
    {
        self.value
    }
}

impl Sink for FoldSink {
    ghost may_hold = { Sums };

    ghost faults = { λ _. 0 };

    fn write(&mut self, piece: &[u8]) -> Result<usize, Failed>
        ensures bound { IfOk result (λ n. n ≤ length piece.now) }
        ensures some { IfOk result (λ n. n ≡ 0 → length piece.now ≡ 0) }
        ensures bytes { IfOk result (λ n. Gets (Sums self.old) (Sums self.new) (take n piece.now)) }
        ensures err { OnErr result (Gets (Sums self.old) (Sums self.new) []) }
        ensures cause { HasCause 0 0 result }
        ensures whole { result ≡ Ok (length piece.now) }
        ensures took { self.new ≡ folded_with self.old piece.now }
    {
        self.count = self.count.saturating_add(piece.len() as u64);
        self.value = with_bytes(self.value, piece);
        Ok(piece.len())
    }
}
