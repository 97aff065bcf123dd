// The numbers of a machine.
ghost use Rattle.std.specs.Prelude.{◌≡◌, ◌<◌, ◌^◌, ℕ, length, map, count_by, sum_by, not, slice_index_or};
ghost use Rattle.handover_core.specs.declared.worker_core.WorkerCore.{WorkerCore};
ghost use Rattle.handover_core.specs.State.{bucket_at, CoreState};
ghost use Rattle.handover_core.specs.Cores.{core_state};
ghost use Rattle.handover_core.specs.Machine.{steps_left};
ghost use Rattle.handover_core.specs.Promises.{worked, done_among};

use crate::{Duty, Machine, WorkerCore};

impl Machine {
    /// How many counted events there still may be: each event but Look and Place lowers it by one.
    pub fn steps_left(&self) -> u64
        ensures { result ≡ steps_left self.now }
    {
        let packets = (self.packets.len() - self.sent as usize) as u64;
        let sends = packets + self.moves + ends_left(&self.ends);
        let turns = self.first_moves + self.buckets.len() as u64;
        2 * sends + queued(&self.cores) + 2 * turns - self.claims - self.releases
    }

    /// The passage word of a bucket: `2 s + 1` while its table is on the shelf with s packets
    /// worked, and `2 s + 2` while a core has it that claimed it at s.
    pub fn word(&self, bucket: u16) -> u64
        requires { bucket < length self.now.buckets }
        ensures { result ≡ (bucket_at self.now bucket).word }
    {
        self.buckets[bucket as usize].word
    }

    /// How many packets of a bucket were worked.
    pub fn worked(&self, bucket: u16) -> u32
        requires { bucket < length self.now.buckets }
        ensures { result ≡ worked self.now bucket }
    {
        match self.buckets[bucket as usize].shelf {
            Some(done) => done,
            None => done_among(&self.cores, bucket),
        }
    }

    /// How many cells are free.
    pub fn free(&self) -> u32
        ensures { result ≡ self.now.free }
    {
        self.free
    }
}

// The `done` of a bucket's table at the first core that has it.
fn done_among(cores: &[WorkerCore], bucket: u16) -> u32
    requires { (c : ℕ) (d : WorkerCore) → c < length cores.now → bucket < length (slice_index_or cores.now c d).duties.items }
    ensures { result ≡ done_among bucket (map core_state cores.now) }
{
    for core in cores {
        match core.duties[bucket as usize] {
            Duty::Holds { done, .. } => return done,
            Duty::Leaves { done, .. } => return done,
            _ => {}
        }
    }
    0
}

// How many cores were sent no End yet.
fn ends_left(ends: &[bool]) -> u64
    ensures { result ≡ count_by not ends.now }
{
    ends.iter().filter(|ended| !**ended).count() as u64
}

// The items on all queues.
fn queued(cores: &[WorkerCore]) -> u64
    requires { sum_by (λ (core : CoreState). length core.queue) (map core_state cores.now) < 2 ^ 64 }
    ensures { result ≡ sum_by (λ (core : CoreState). length core.queue) (map core_state cores.now) }
{
    let mut items = 0;
    for core in cores {
        items += core.queue.len() as u64;
    }
    items
}
