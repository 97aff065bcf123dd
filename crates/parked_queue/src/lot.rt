ghost use Rattle.std.specs.Prelude.{◌≡◌, ◌≢◌, ◌<◌, ◌≤◌, ◌^◌, [], length, slice_index, Some, IfOk, MatchOption};
ghost use Rattle.packet_pool.specs.Facts.{facts, IsAlone};
ghost use Rattle.parked_queue.specs.Parked.{parked, unparked, cells_at, FirstIs, first_place, no_cells, AllEmpty};

use crate::chains::{Chains, first_place};
use crate::parking::{park_in, take_from};
use packet_pool::Cell;
use rss_base::NoMemory;
use std::alloc::Global;
use std::marker::Model;

/// The parked cells of one core: those of each bucket, and the line of buckets that wait.
#[derive(Drop)]
pub struct Lot {
    // the cells of each bucket, if it has some
    chains: Vec<Option<Chains>>,
    // the buckets that have cells, in the order in which they began to wait
    line: Vec<u16>,
}

impl Model for Lot {
    ghost use Rattle.std.specs.Prelude.{map, vec_capacity};
    ghost use Rattle.parked_queue.specs.Chained.{cells_in};
    ghost use Rattle.parked_queue.specs.Parked.{Parked, waits};
    ghost use Rattle.parked_queue.specs.Lined.{IsLined};

    ghost Value = { Parked };

    ghost view = { λ l. waits (map cells_in l.chains.items) l.line.items };

    ghost invariant = { λ l. IsLined (map cells_in l.chains.items) l.line.items (vec_capacity l.line) };
}

impl Lot {
    /// A lot without cells, for buckets below a number. It takes memory for each bucket's two
    /// chains and its place in line, and none later.
    pub fn new(alloc: Global, buckets: u16) -> Result<Lot, NoMemory>
        ensures { IfOk result (λ l. l ≡ no_cells buckets) }
    {
        let Ok(mut chains) = Vec::with_capacity(alloc, buckets as usize) else {
            return Err(NoMemory);
        };
        for _bucket in 0..buckets {
            chains.push_reserved(None);
        }
        let Ok(line) = Vec::with_capacity(alloc, buckets as usize) else {
            return Err(NoMemory);
        };
        Ok(Lot { chains, line })
    }

    /// Parks a cell behind those of its bucket, however many they are, in constant time. A bucket
    /// that had none begins to wait, behind all that wait.
    pub fn park(&mut self, cell: Box<Cell>)
        requires range { (facts cell.value).bucket < length self.old.cells }
        requires alone { IsAlone cell.value }
        ensures { self.new ≡ parked (facts cell.value) self.old }
    {
        park_in(&mut self.chains, &mut self.line, cell);
    }

    /// Takes the oldest cell of a bucket. A bucket that has none left waits no more.
    pub fn take_front(&mut self, bucket: u16) -> Option<Box<Cell>>
        requires range { bucket < length self.old.cells }
        ensures given { MatchOption result (cells_at bucket self.old ≡ []) (λ cell. FirstIs (facts cell.value) (cells_at bucket self.old) × IsAlone cell.value) }
        ensures left { MatchOption result (self.new ≡ self.old) (λ _. self.new ≡ unparked bucket self.old) }
    {
        take_from(&mut self.chains, &mut self.line, bucket)
    }

    /// The bucket at a place in line, from 0. There is one exactly below the line's length.
    pub fn waiting(&self, index: usize) -> Option<u16>
        ensures { MatchOption result ((length self.now.waiting ≤ index) × (index ≡ 0 → AllEmpty self.now)) (λ b. (index < length self.now.waiting) × (slice_index self.now.waiting index ≡ b) × (b < length self.now.cells) × (cells_at b self.now ≢ []) × (length self.now.waiting < 2 ^ 64)) }
    {
        if index < self.line.len() {
            Some(self.line[index])
        } else {
            None
        }
    }

    /// The place of a bucket's oldest cell.
    pub fn first_place(&self, bucket: u16) -> Option<u32>
        requires range { bucket < length self.now.cells }
        ensures { MatchOption result (cells_at bucket self.now ≡ []) (λ place. first_place bucket self.now ≡ Some place) }
    {
        match &self.chains[bucket as usize] {
            None => None,
            Some(cells) => Some(first_place(cells)),
        }
    }
}
