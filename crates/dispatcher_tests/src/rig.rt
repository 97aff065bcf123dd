ghost use Rattle.std.specs.Prelude.{◌≡◌, ◌<◌};
ghost use Rattle.dispatch_loop.specs.Accepted.{IsAccepted};

use crate::hand::{take_from, work_until};
use crate::step::Step;
use crate::turning::finish;
use balancer::Balancer;
use bucket_table::{BucketTable, FLOW_HASH_KEY_BYTES, FlowHashKey};
use core_queue::{Item, LocalLane};
use dispatch_loop::{Dispatcher, DispatcherEnd, DispatcherTurn, Options, policy_of};
use flow_work::Count;
use handover_core::Item as Sent;
use handover_words::{LocalShelf, Shelf};
use indirection::Journal;
use load_meter::{LocalMeter, NoteLoad, ReadLoad};
use packet_fields::NoName;
use packet_pool::{LocalPool, Pool};
use pcap_reader::Reader;
use rss_base::MemorySource;
use std::alloc::Global;
use std::marker::Model;
use std::test::Fail;

/// A dispatcher for two cores over a capture in memory, with its ends on one thread, at which the
/// steps of workers are done by hand.
#[derive(Drop)]
pub(crate) struct Rig {
    dispatcher: Dispatcher<Count, Balancer>,
    reader: Reader,
    source: MemorySource,
    lanes: [LocalLane<NoName>; 2],
    shelf: LocalShelf<BucketTable<Count>, NoName>,
    pool: LocalPool,
    meter: LocalMeter,
    // The table that was claimed last, until it is released.
    held: Option<BucketTable<Count>>,
}

impl Model for Rig {
    ghost use Rattle.flow_work.specs.Costs.{one};
    ghost use Rattle.dispatch_loop.specs.DispatcherState.{dispatcher_state_by};
    ghost use Rattle.dispatcher_tests.specs.Rig.{IsRig};

    ghost Value = { Unit {0} };

    ghost view = { λ r. tt };

    ghost invariant = { λ r. IsRig (dispatcher_state_by one r.dispatcher) r.lanes r.shelf r.meter r.reader r.source r.held };
}

impl Rig {
    /// A rig at the beginning of a capture, with so many items of room on each lane, where these
    /// calls of the source fail.
    pub(crate) fn new(
        alloc: Global,
        options: &Options,
        bytes: Vec<u8>,
        fail_at: Vec<u64>,
        room: u32,
    ) -> Result<Rig, Fail>
        requires accepted { IsAccepted options.now }
        requires cores { options.now.cores ≡ 2 }
        requires room { 0 < room }
    {
        let buckets = options.start.buckets();
        let policy = policy_of(alloc, options)?;
        let dispatcher = Dispatcher::new(alloc, options, policy)?;
        let mut source = MemorySource::new(bytes, Vec::new(alloc), fail_at);
        let reader = Reader::start(alloc, &mut source)?;
        let first = LocalLane::new(alloc, room, &options.key, buckets)?;
        let second = LocalLane::new(alloc, room, &options.key, buckets)?;
        let hashing = FlowHashKey::from_bytes(&[7; FLOW_HASH_KEY_BYTES]);
        let shelf = LocalShelf::<BucketTable<Count>, NoName>::new(
            alloc,
            &options.key,
            buckets,
            &hashing,
        )?;
        let pool = LocalPool::new(alloc, options.pool)?;
        let meter = LocalMeter::new(alloc, 2)?;
        Ok(Rig {
            dispatcher,
            reader,
            source,
            lanes: [first, second],
            shelf,
            pool,
            meter,
            held: None,
        })
    }

    fn turn(&mut self) -> DispatcherTurn {
        self.dispatcher
            .turn::<
                NoName,
                MemorySource,
                LocalLane<NoName>,
                BucketTable<Count>,
                LocalShelf<BucketTable<Count>, NoName>,
                LocalPool,
                LocalMeter,
            >(
                &Count,
                &mut self.reader,
                &mut self.source,
                &mut self.lanes,
                &mut self.shelf,
                &mut self.pool,
                &mut self.meter,
            )
    }

    /// Gives the dispatcher turns until it has finished, at most so many.
    pub(crate) fn finish(&mut self, most: u32) -> Option<DispatcherEnd> {
        finish::<
            NoName,
            Count,
            Balancer,
            MemorySource,
            LocalLane<NoName>,
            BucketTable<Count>,
            LocalShelf<BucketTable<Count>, NoName>,
            LocalPool,
            LocalMeter,
        >(
            &mut self.dispatcher,
            &Count,
            &mut self.reader,
            &mut self.source,
            &mut self.lanes,
            &mut self.shelf,
            &mut self.pool,
            &mut self.meter,
            most,
        )
    }

    // Takes the next item of a core's lane, and gives its cell back to the pool.
    fn take(&mut self, core: u8) -> Option<Sent> {
        if core >= 2 {
            return None;
        }
        match take_from::<NoName, LocalLane<NoName>>(&mut self.lanes, usize::from(core)) {
            None => None,
            Some(Item::End) => Some(Sent::End),
            Some(Item::Cell(cell)) => {
                let is = cell.facts();
                let _given = self.pool.give(cell);
                Some(Sent::Of {
                    kind: is.kind,
                    bucket: is.bucket,
                    place: is.place,
                })
            }
        }
    }

    // Claims the table of a bucket. Answers whether its word was that of the place.
    fn claim(&mut self, bucket: u16, place: u32) -> bool {
        if bucket >= self.dispatcher.journal().start().buckets() {
            return false;
        }
        match self.shelf.claim(bucket, place) {
            Ok(table) => {
                self.held = Some(table);
                true
            }
            Err(_) => false,
        }
    }

    // Works the table of bucket 0 that was claimed, and puts it back. Answers whether it was
    // claimed, with fewer packets done.
    fn release(&mut self, done: u32) -> bool {
        let Some(mut table) = self.held.take() else {
            return false;
        };
        let bucket = table.bucket();
        if bucket != 0 || done <= table.done() {
            return false;
        }
        work_until(&mut table, done);
        self.shelf.release(bucket, done, table);
        true
    }

    // Notes how many packets a core has worked, which isn't fewer than before.
    fn note(&mut self, core: u8, worked: u64) -> bool {
        if core >= self.dispatcher.journal().start().cores() {
            return false;
        }
        if worked < self.meter.read(core) {
            return false;
        }
        self.meter.note(core, worked);
        true
    }

    // Does a step. Answers whether that came of it which is to.
    fn goes(&mut self, step: &Step) -> bool {
        match *step {
            Step::Turn(turn) => self.turn() == turn,
            Step::Take { core, item } => self.take(core) == Some(item),
            Step::Nothing { core } => self.take(core) == None,
            Step::Claim { bucket, place } => self.claim(bucket, place),
            Step::Release { done } => self.release(done),
            Step::Note { core, worked } => self.note(core, worked),
        }
    }

    /// Does these steps in order. Answers the index of the first one that went otherwise than it is
    /// to, behind which no more is done.
    pub(crate) fn differs_at(&mut self, steps: &[Step]) -> Option<usize> {
        for (index, step) in steps.iter().enumerate() {
            if !self.goes(step) {
                return Some(index);
            }
        }
        None
    }

    /// The dispatcher's journal so far.
    pub(crate) fn journal(&self) -> &Journal {
        self.dispatcher.journal()
    }
}
