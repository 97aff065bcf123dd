ghost use Rattle.std.specs.Prelude.{◌≡◌, ◌<◌, ◌+◌, ◌-◌, ◌++◌, ◌∷◌, [], IfOk, OnOk, OnErr, IsSome};
ghost use Rattle.indirection.specs.Rounds.{ArePaired, AwaitOutcome, opened_round, last_round, IsLastRoundAt, entries_with};

use crate::{Entry, Loads, MoveOrder, OrderEntry, Outcome, Proposal, RoundEntry, Table};
use rss_base::NoMemory;
use std::alloc::Global;
use std::marker::Model;

/// The journal of a run: its starting table, and its rounds and orders with what came of them.
#[derive(Drop)]
pub struct Journal {
    start: Table,
    entries: Vec<Entry>,
    room: usize,
}

impl Model for Journal {
    ghost use Rattle.std.specs.Prelude.{◌+◌, ◌≤◌, vec_len, vec_capacity};
    ghost use Rattle.indirection.specs.JournalView.{JournalState};
    ghost use Rattle.indirection.specs.Rounds.{ArePaired};

    ghost Value = { JournalState };

    ghost view = { λ j. record { start = j.start; entries = j.entries.items; room = j.room } };

    ghost invariant = { λ j. (vec_len j.entries + j.room ≤ vec_capacity j.entries) × ArePaired j.entries.items };
}

impl Journal {
    /// A journal with a copy of the starting table, no entry, and no room for orders.
    pub fn new(alloc: Global, start: &Table) -> Result<Journal, NoMemory>
        ensures { IfOk result (λ j. j ≡ record { start = start.now; entries = []; room = 0 }) }
    {
        let start = start.copy(alloc)?;
        Ok(Journal {
            start,
            entries: Vec::new(alloc),
            room: 0,
        })
    }

    /// Adds a round with copies of the loads and the proposals, and no outcomes yet. The room for
    /// orders stays. After [`NoMemory`] the journal is as it was.
    pub fn push_round(
        &mut self,
        at: u32,
        loads: &Loads,
        proposals: &[Proposal],
    ) -> Result<(), NoMemory>
        ensures ok { OnOk result (self.new ≡ record self.old { entries = self.old.entries ++ Entry.Round (opened_round at loads.now proposals.now) ∷ [] }) }
        ensures err { OnErr result (self.new ≡ self.old) }
    {
        let alloc = *self.entries.allocator();
        let round = RoundEntry::new(alloc, at, loads, proposals)?;
        let Ok(()) = self.entries.reserve(self.room + 1) else {
            return Err(NoMemory);
        };
        self.entries.push_reserved(Entry::Round(round));
        Ok(())
    }

    /// Makes room for so many more orders. After [`NoMemory`] the journal is as it was.
    pub fn reserve_orders(&mut self, count: u32) -> Result<(), NoMemory>
        ensures ok { OnOk result (self.new ≡ record self.old { room = self.old.room + count }) }
        ensures err { OnErr result (self.new ≡ self.old) }
    {
        let room = self.room + count as usize;
        match self.entries.reserve(room) {
            Ok(()) => {
                self.room = room;
                Ok(())
            }
            Err(_) => Err(NoMemory),
        }
    }

    /// How many more orders there is room for.
    pub fn room(&self) -> usize
        ensures { result ≡ self.now.room }
    {
        self.room
    }

    /// Adds an order with what came of it, and uses up the room of one.
    pub fn push_order(&mut self, order: MoveOrder, outcome: Outcome)
        requires { 0 < self.old.room }
        ensures { self.new ≡ record self.old { entries = self.old.entries ++ Entry.Order (record { order = order; outcome = outcome }) ∷ []; room = self.old.room - 1 } }
    {
        self.entries
            .push_reserved(Entry::Order(OrderEntry { order, outcome }));
        self.room -= 1;
    }

    /// Adds what came of the next proposal of the last round, which has room for it.
    pub fn push_outcome(&mut self, outcome: Outcome)
        requires { AwaitOutcome self.old.entries }
        ensures { self.new ≡ record self.old { entries = entries_with self.old.entries outcome } }
    {
        add_outcome(&mut self.entries, outcome);
    }

    /// The rounds and orders, in order.
    pub fn entries(&self) -> &[Entry]
        ensures value { result.now ≡ self.now.entries }
        ensures paired { ArePaired self.now.entries }
    {
        &self.entries
    }

    /// The starting table.
    pub fn start(&self) -> &Table
        ensures { result.now ≡ self.now.start }
    {
        &self.start
    }
}

// The place of the last round.
fn last_round_place(entries: &[Entry]) -> usize
    requires { IsSome (last_round entries.now) }
    ensures { IsLastRoundAt entries.now result }
{
    let mut place = entries.len();
    while place > 0 {
        place -= 1;
        if let Entry::Round(_) = &entries[place] {
            return place;
        }
    }
    unreachable!()
}

// Adds what came of the next proposal of the last round.
fn add_outcome(entries: &mut [Entry], outcome: Outcome)
    requires { AwaitOutcome entries.old }
    ensures { entries.new ≡ entries_with entries.old outcome }
{
    let place = last_round_place(entries);
    if let Entry::Round(round) = &mut entries[place] {
        round.push_outcome(outcome);
    }
}

#[cfg(test)]
mod tests;
