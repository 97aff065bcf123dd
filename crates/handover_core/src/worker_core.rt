ghost use Rattle.std.specs.Prelude.{◌≡◌, ◌<◌, ◌+◌, ◌++◌, ◌∷◌, ℕ, [], List, IfOk, vec_len, vec_capacity, map, length, slice_set, slice_index_or, replicate, if◌then◌else◌};
ghost use Rattle.std.specs.VecDeque.{deque_len, deque_capacity};
ghost use Rattle.handover_core.specs.declared.item.Item.TheVariants.{End};
ghost use Rattle.handover_core.specs.State.{Away, Held, set_hand};
ghost use Rattle.handover_core.specs.Machine.{leave, has_end};
ghost use Rattle.handover_core.specs.Cores.{hand_of_duty, core_state, HasRoom, CanTake, core_took, cells_freed};

use crate::{Duty, Item};
use rss_base::NoMemory;
use std::alloc::Global;
use std::collections::VecDeque;

/// A core of the machine.
#[derive(Drop)]
pub struct WorkerCore {
    /// Its receive queue.
    pub(crate) queue: VecDeque<Item>,
    /// What it took, in order.
    pub(crate) taken: Vec<Item>,
    /// What it does with each bucket.
    pub(crate) duties: Vec<Duty>,
    /// Whether it took End.
    pub(crate) took_end: bool,
}

impl WorkerCore {
    /// A core with nothing to do, with room for so many items on its queue and on its list.
    pub(crate) fn new(
        alloc: Global,
        buckets: usize,
        queued: usize,
        taken: usize,
    ) -> Result<WorkerCore, NoMemory>
        ensures state { IfOk result (λ core. core_state core ≡ record { queue = []; taken = []; hands = replicate buckets Away }) }
        ensures room { IfOk result (λ core. HasRoom queued taken core) }
    {
        let Ok(queue) = VecDeque::with_capacity(alloc, queued) else {
            return Err(NoMemory);
        };
        let Ok(list) = Vec::with_capacity(alloc, taken) else {
            return Err(NoMemory);
        };
        let duties = no_duties(alloc, buckets)?;
        Ok(WorkerCore {
            queue,
            taken: list,
            duties,
            took_end: false,
        })
    }

    /// An item more on the queue.
    pub(crate) fn push(&mut self, item: Item)
        requires { deque_len self.old.queue < deque_capacity self.old.queue }
        ensures state { core_state self.new ≡ record (core_state self.old) { queue = (core_state self.old).queue ++ item ∷ [] } }
        ensures room { (q t : ℕ) → HasRoom q t self.old → HasRoom q t self.new }
    {
        self.queue.push_back_reserved(item);
    }

    /// The front item of the queue goes to the list of what was taken.
    pub(crate) fn take(&mut self) -> Item
        requires some { 0 < deque_len self.old.queue }
        requires room { vec_len self.old.taken < vec_capacity self.old.taken }
        ensures front { self.old.queue.items ≡ result ∷ self.new.queue.items }
        ensures taken { self.new.taken.items ≡ self.old.taken.items ++ result ∷ [] }
        ensures duties { self.new.duties ≡ self.old.duties }
        ensures room { (q t : ℕ) → HasRoom q t self.old → HasRoom q t self.new }
    {
        match self.queue.pop_front() {
            Some(item) => {
                self.taken.push_reserved(item);
                if item == Item::End {
                    self.took_end = true;
                }
                item
            }
            None => unreachable!(),
        }
    }

    /// The front item is taken, and met as the core's duty says. How many cells are free then.
    pub(crate) fn take_front(&mut self) -> u32
        requires can { CanTake self.old self.old.queue.items }
        requires room { vec_len self.old.taken < vec_capacity self.old.taken }
        ensures state { core_state self.new ≡ core_took (core_state self.old) self.old.queue.items }
        ensures cells { result ≡ cells_freed (core_state self.old) self.old.queue.items }
        ensures room { (q t : ℕ) → HasRoom q t self.old → HasRoom q t self.new }
    {
        match self.take() {
            Item::Of {
                kind,
                bucket,
                place,
            } => {
                let duty = self.duties[bucket as usize];
                self.set_duty(bucket, duty.met(kind, place));
                duty.freed(kind)
            }
            Item::End => {
                self.leave_all();
                0
            }
        }
    }

    /// The table of a bucket is claimed: it is held, or to be put back at once where End was taken.
    pub(crate) fn claim(&mut self, bucket: u16, first: u32, done: u32)
        requires bucket { bucket < vec_len self.old.duties }
        requires took_end { self.old.took_end ≡ has_end self.old.taken.items }
        ensures state { core_state self.new ≡ set_hand (core_state self.old) bucket (if has_end (core_state self.old).taken then leave (Held first done) else Held first done) }
        ensures room { (q t : ℕ) → HasRoom q t self.old → HasRoom q t self.new }
    {
        let held = Duty::Holds { start: first, done };
        let duty = if self.took_end { held.left() } else { held };
        self.set_duty(bucket, duty);
    }

    /// Another duty for a bucket.
    pub(crate) fn set_duty(&mut self, bucket: u16, duty: Duty)
        requires { bucket < vec_len self.old.duties }
        ensures state { core_state self.new ≡ record (core_state self.old) { hands = slice_set (core_state self.old).hands bucket (hand_of_duty duty) } }
        ensures room { (q t : ℕ) → HasRoom q t self.old → HasRoom q t self.new }
    {
        self.duties[bucket as usize] = duty;
    }

    /// Each table that is held is to be put back.
    pub(crate) fn leave_all(&mut self)
        ensures state { core_state self.new ≡ record (core_state self.old) { hands = map leave (core_state self.old).hands } }
        ensures room { (q t : ℕ) → HasRoom q t self.old → HasRoom q t self.new }
    {
        for bucket in 0..self.duties.len() {
            self.duties[bucket] = self.duties[bucket].left();
        }
    }
}

// Nothing to do with any of so many buckets.
fn no_duties(alloc: Global, buckets: usize) -> Result<Vec<Duty>, NoMemory>
    ensures { IfOk result (λ duties. map hand_of_duty duties.items ≡ replicate buckets Away) }
{
    let Ok(mut duties) = Vec::with_capacity(alloc, buckets) else {
        return Err(NoMemory);
    };
    for _ in 0..buckets {
        let Ok(()) = duties.push(Duty::Nothing) else {
            return Err(NoMemory);
        };
    }
    Ok(duties)
}
