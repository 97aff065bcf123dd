ghost use Rattle.std.specs.Prelude.{◌≡◌, ◌<◌, ◌+◌, ◌++◌, ◌∷◌, [], ℕ, length, true, IfOk, OnOk};
ghost use Rattle.handover_core.specs.State.{MachineView, bucket_at, hand_at, sent_of};
ghost use Rattle.handover_core.specs.Machine.{enabled, step, waits_for, is_leaving};
ghost use Rattle.handover_core.specs.Cores.{hand_of_duty};

mod choosing;
mod counting;
mod dispatching;
mod opening;
mod working;

use crate::{BucketState, Duty, Event, Post, WorkerCore};
use std::marker::Model;

/// The handover machine: one dispatcher and some cores, with a receive queue each.
#[derive(Drop)]
pub struct Machine {
    packets: Vec<u16>,
    pool: u32,
    first_moves: u64,
    sent: u32,
    sent_of: Vec<u32>,
    moves: u64,
    free: u32,
    claims: u64,
    releases: u64,
    dispatched: Vec<Post>,
    ending: bool,
    ends: Vec<bool>,
    buckets: Vec<BucketState>,
    cores: Vec<WorkerCore>,
}

impl Model for Machine {
    ghost use Rattle.handover_core.specs.State.{MachineView};

    ghost Value = { MachineView };

    ghost use Rattle.handover_core.specs.Inside.{state_of, IsMachine};

    ghost view = { state_of };

    ghost invariant = { IsMachine };
}

impl Machine {
    /// Whether an event is enabled.
    pub fn enabled(&self, event: &Event) -> bool
        ensures { result ≡ enabled self.now event.now }
    {
        match *event {
            Event::Send => (self.sent as usize) < self.packets.len() && 0 < self.free,
            Event::Look { bucket } => (bucket as usize) < self.buckets.len(),
            Event::Move { bucket, to } => self.can_move(bucket, to),
            Event::Place { bucket, to } => self.can_place(bucket, to),
            Event::SendEnd { core } => self.can_end(core),
            Event::Take { core } => self.can_take(core),
            Event::Claim { core, bucket } => self.can_claim(core, bucket),
            Event::Release { core, bucket } => self.can_release(core, bucket),
        }
    }

    /// Takes an event. It takes no memory.
    pub fn step(&mut self, event: Event)
        requires { enabled self.old event ≡ true }
        ensures { self.new ≡ step self.old event }
    {
        match event {
            Event::Send => self.send(),
            Event::Look { bucket } => self.look(bucket),
            Event::Move { bucket, to } => self.move_to(bucket, to),
            Event::Place { bucket, to } => self.place(bucket, to),
            Event::SendEnd { core } => self.send_end(core),
            Event::Take { core } => self.take(core),
            Event::Claim { core, bucket } => self.claim(core, bucket),
            Event::Release { core, bucket } => self.release(core, bucket),
        }
    }

    fn can_move(&self, bucket: u16, to: u8) -> bool
        ensures { result ≡ enabled self.now (Event.Move bucket to) }
    {
        if bucket as usize >= self.buckets.len() || to as usize >= self.cores.len() {
            return false;
        }
        let state = self.buckets[bucket as usize];
        let fresh = state.start < self.sent_of[bucket as usize];
        let claimed = state.seen == 2 * u64::from(state.start) + 2;
        let room = 0 < self.free && 0 < self.moves;
        to != state.owner && fresh && claimed && room && !self.ending
    }

    fn can_place(&self, bucket: u16, to: u8) -> bool
        ensures { result ≡ enabled self.now (Event.Place bucket to) }
    {
        if bucket as usize >= self.buckets.len() || to as usize >= self.cores.len() {
            return false;
        }
        to != self.buckets[bucket as usize].owner
            && self.sent_of[bucket as usize] == 0
            && !self.ending
    }

    fn can_end(&self, core: u8) -> bool
        ensures { result ≡ enabled self.now (Event.SendEnd core) }
    {
        if core as usize >= self.cores.len() {
            return false;
        }
        self.sent as usize == self.packets.len() && !self.ends[core as usize]
    }

    fn can_take(&self, core: u8) -> bool
        ensures { result ≡ enabled self.now (Event.Take core) }
    {
        if core as usize >= self.cores.len() {
            return false;
        }
        !self.cores[core as usize].queue.is_empty()
    }

    fn can_claim(&self, core: u8, bucket: u16) -> bool
        ensures { result ≡ enabled self.now (Event.Claim core bucket) }
    {
        if core as usize >= self.cores.len() || bucket as usize >= self.buckets.len() {
            return false;
        }
        waits_for(self.duty(core, bucket), self.buckets[bucket as usize].word)
    }

    fn can_release(&self, core: u8, bucket: u16) -> bool
        ensures { result ≡ enabled self.now (Event.Release core bucket) }
    {
        if core as usize >= self.cores.len() || bucket as usize >= self.buckets.len() {
            return false;
        }
        matches!(self.duty(core, bucket), Duty::Leaves { .. })
    }

    fn duty(&self, core: u8, bucket: u16) -> Duty
        requires core { core < length self.now.cores }
        requires bucket { bucket < length self.now.buckets }
        ensures { hand_of_duty result ≡ hand_at self.now core bucket }
    {
        self.cores[core as usize].duties[bucket as usize]
    }
}

// Whether the packets that wait there wait for this word.
fn waits_for(duty: Duty, word: u64) -> bool
    ensures { result ≡ waits_for (hand_of_duty duty) word }
{
    match duty {
        Duty::Parks { first, count } => 0 < count && word == 2 * u64::from(first) + 1,
        _ => false,
    }
}

#[cfg(test)]
mod tests;
