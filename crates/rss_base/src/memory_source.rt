ghost use Rattle.std.specs.Prelude.{◌≡◌, ◌≤◌, ◌<◌, ◌-◌, ◌↔◌, List, ℕ, length, drop, take, min, IfOk, OnErr, IsErr, Some, Contains};
ghost use Rattle.std.specs.Io.KnownBytes.{ReadConsumes};
ghost use Rattle.rss_base.specs.Faults.{HasCause};
ghost use Rattle.rss_base.specs.Memory.{made_over, next_call, cut_at, gave, failed_to_give};

use crate::{Failed, Source};
use std::marker::Model;

/// A source over bytes in memory, which cuts them and fails exactly as it is told.
#[derive(Drop)]
pub struct MemorySource {
    bytes: Vec<u8>,
    given: usize,
    cuts: Vec<u32>,
    fail_at: Vec<u64>,
    calls: u64,
    faults: u64,
}

impl Model for MemorySource {
    ghost use Rattle.std.specs.Prelude.{◌≤◌, length};
    ghost use Rattle.rss_base.specs.Memory.{Feed};

    ghost Value = { Feed };

    ghost view = { λ s. record { all = s.bytes.items; given = s.given; cuts = s.cuts.items; fail_at = s.fail_at.items; calls = s.calls; faults = s.faults } };

    ghost invariant = { λ s. s.given ≤ length s.bytes.items };
}

impl MemorySource {
    /// A source over these bytes. Call number k, from 1, gives at most `cuts[(k - 1) % len]`
    /// bytes, where a cut of 0 counts as 1 and an empty list cuts nothing. It fails exactly where
    /// k stands in `fail_at`.
    pub fn new(bytes: Vec<u8>, cuts: Vec<u32>, fail_at: Vec<u64>) -> MemorySource
        ensures { result ≡ record { all = bytes.items; given = 0; cuts = cuts.items; fail_at = fail_at.items; calls = 0; faults = 0 } }
    {
        MemorySource {
            bytes,
            given: 0,
            cuts,
            fail_at,
            calls: 0,
            faults: 0,
        }
    }
}

// The largest piece that a call may give.
fn cut_of(cuts: &[u32], call: u64) -> usize
    requires { 1 ≤ call }
    ensures { result ≡ cut_at cuts.now call }
{
    if cuts.is_empty() {
        usize::MAX
    } else {
        let place = (call - 1) % cuts.len() as u64;
        let cut = cuts[place as usize] as usize;
        cut.max(1)
    }
}

// Copies what is there and fits, from a place on.
fn copy_from(bytes: &[u8], from: usize, into: &mut [u8], most: usize) -> usize
    requires { from ≤ length bytes.now }
    ensures count { result ≡ min most (min (length into.old) (length bytes.now - from)) }
    ensures bytes { take result into.new ≡ take result (drop from bytes.now) }
{
    let count = most.min(into.len()).min(bytes.len() - from);
    into[..count].copy_from_slice(&bytes[from..from + count]);
    count
}

impl Source for MemorySource {
    ghost left = { λ s. Some (drop s.given s.all) };

    ghost faults = { λ s. s.faults };

    ghost Origin = { List ℕ × List ℕ × List ℕ };

    ghost origin = { made_over };

    fn read(&mut self, into: &mut [u8]) -> Result<usize, Failed>
        ensures bound { IfOk result (λ n. n ≤ length into.new) }
        ensures bytes { ReadConsumes (Some (drop self.old.given self.old.all)) (Some (drop self.new.given self.new.all)) result into.new }
        ensures cause { HasCause self.old.faults self.new.faults result }
        ensures origin { made_over self.new ≡ made_over self.old }
        ensures fails { IsErr result ↔ Contains self.old.fail_at (next_call self.old.calls) }
        ensures piece { IfOk result (λ n. n ≡ min (cut_at self.old.cuts (next_call self.old.calls)) (min (length into.old) (length self.old.all - self.old.given))) }
        ensures gave { IfOk result (λ n. self.new ≡ gave self.old n) }
        ensures failed { OnErr result (self.new ≡ failed_to_give self.old) }
    {
        self.calls = self.calls.saturating_add(1);
        if self.fail_at.contains(&self.calls) {
            self.faults = self.faults.saturating_add(1);
            return Err(Failed);
        }
        let most = cut_of(&self.cuts, self.calls);
        let count = copy_from(&self.bytes, self.given, into, most);
        self.given += count;
        Ok(count)
    }
}
