// The workers' events.
ghost use Rattle.std.specs.Prelude.{◌≡◌, true};
ghost use Rattle.handover_core.specs.Machine.{enabled, step, shelf_done};

use crate::{Duty, Event, Machine};

impl Machine {
    // A core takes the front item of its queue.
    pub(super) fn take(&mut self, core: u8)
        requires { enabled self.old (Event.Take core) ≡ true }
        ensures { self.new ≡ step self.old (Event.Take core) }
    {
        let freed = self.cores[core as usize].take_front();
        self.free += freed;
    }

    // A core claims the table of a bucket, and works the packets that wait.
    pub(super) fn claim(&mut self, core: u8, bucket: u16)
        requires { enabled self.old (Event.Claim core bucket) ≡ true }
        ensures { self.new ≡ step self.old (Event.Claim core bucket) }
    {
        match self.duty(core, bucket) {
            Duty::Parks { first, count } => {
                let done = done_on(self.buckets[bucket as usize].shelf) + count;
                self.cores[core as usize].claim(bucket, first, done);
                self.free += count;
                self.claims += 1;
                let state = &mut self.buckets[bucket as usize];
                state.word = 2 * u64::from(first) + 2;
                state.shelf = None;
            }
            _ => unreachable!(),
        }
    }

    // A core puts the table of a bucket on the shelf.
    pub(super) fn release(&mut self, core: u8, bucket: u16)
        requires { enabled self.old (Event.Release core bucket) ≡ true }
        ensures { self.new ≡ step self.old (Event.Release core bucket) }
    {
        match self.duty(core, bucket) {
            Duty::Leaves { done, .. } => {
                self.cores[core as usize].set_duty(bucket, Duty::Nothing);
                self.releases += 1;
                let state = &mut self.buckets[bucket as usize];
                state.word = 2 * u64::from(done) + 1;
                state.shelf = Some(done);
            }
            _ => unreachable!(),
        }
    }
}

// How many packets the table on the shelf has worked.
fn done_on(shelf: Option<u32>) -> u32
    ensures { result ≡ shelf_done shelf }
{
    shelf.unwrap_or(0)
}
