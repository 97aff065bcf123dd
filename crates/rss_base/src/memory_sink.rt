ghost use Rattle.std.specs.Prelude.{◌≡◌, ◌≤◌, ◌<◌, ◌⊎◌, ◌↔◌, [], length, take, IfOk, OnOk, OnErr, IsErr, Contains};
ghost use Rattle.rss_base.specs.Faults.{HasCause};
ghost use Rattle.rss_base.specs.Written.{Gets};
ghost use Rattle.rss_base.specs.Memory.{next_call, took, failed_to_take};

use crate::{Failed, NoMemory, Sink};
use std::alloc::Global;
use std::marker::Model;

/// A sink in memory, of fixed room, which fails exactly as it is told.
#[derive(Drop)]
pub struct MemorySink {
    bytes: Vec<u8>,
    room: usize,
    fail_at: Vec<u64>,
    calls: u64,
    faults: u64,
}

impl Model for MemorySink {
    ghost use Rattle.std.specs.Prelude.{◌≤◌, ◌+◌, ◌-◌, vec_len, vec_capacity, length};
    ghost use Rattle.rss_base.specs.Memory.{Store};

    ghost Value = { Store };

    ghost view = { λ s. record { bytes = s.bytes.items; room = s.room - vec_len s.bytes; fail_at = s.fail_at.items; calls = s.calls; faults = s.faults } };

    ghost invariant = { λ s. (vec_len s.bytes ≤ s.room) × (s.room ≤ vec_capacity s.bytes) };
}

impl MemorySink {
    /// A sink with room for so many bytes. No later call takes memory. A write takes the whole
    /// piece, or fails: exactly where its number, from 1, stands in `fail_at`, or where the piece
    /// is longer than the room that is left.
    pub fn new(alloc: Global, room: u32, fail_at: Vec<u64>) -> Result<MemorySink, NoMemory>
        ensures { IfOk result (λ s. s ≡ record { bytes = []; room = room; fail_at = fail_at.items; calls = 0; faults = 0 }) }
    {
        match Vec::with_capacity(alloc, room as usize) {
            Ok(bytes) => Ok(MemorySink {
                bytes,
                room: room as usize,
                fail_at,
                calls: 0,
                faults: 0,
            }),
            Err(_) => Err(NoMemory),
        }
    }

    /// What was written.
    pub fn bytes(&self) -> &[u8]
        ensures { result.now ≡ self.now.bytes }
    {
        &self.bytes
    }
}

impl Sink for MemorySink {
    ghost may_hold = { λ s bytes. bytes ≡ s.bytes };

    ghost faults = { λ s. s.faults };

    fn write(&mut self, piece: &[u8]) -> Result<usize, Failed>
        ensures bound { IfOk result (λ n. n ≤ length piece.now) }
        ensures some { IfOk result (λ n. n ≡ 0 → length piece.now ≡ 0) }
        ensures bytes { IfOk result (λ n. Gets (λ bytes. bytes ≡ self.old.bytes) (λ bytes. bytes ≡ self.new.bytes) (take n piece.now)) }
        ensures err { OnErr result (Gets (λ bytes. bytes ≡ self.old.bytes) (λ bytes. bytes ≡ self.new.bytes) []) }
        ensures cause { HasCause self.old.faults self.new.faults result }
        ensures fails { IsErr result ↔ (Contains self.old.fail_at (next_call self.old.calls) ⊎ (self.old.room < length piece.now)) }
        ensures whole { IfOk result (λ n. n ≡ length piece.now) }
        ensures took { OnOk result (self.new ≡ took self.old piece.now) }
        ensures failed { OnErr result (self.new ≡ failed_to_take self.old) }
    {
        self.calls = self.calls.saturating_add(1);
        if self.fail_at.contains(&self.calls) || piece.len() > self.room - self.bytes.len() {
            self.faults = self.faults.saturating_add(1);
            return Err(Failed);
        }
        match self.bytes.extend_from_slice(piece) {
            Ok(()) => Ok(piece.len()),
            Err(_) => unreachable!(),
        }
    }
}
