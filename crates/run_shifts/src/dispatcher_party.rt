ghost use Rattle.std.specs.Prelude.{◌≡◌, ◌≤◌, [], length, map, Some, IfSome, vec_capacity};
ghost use Rattle.bucket_table.specs.Table.{TableOf};
ghost use Rattle.dispatch_loop.specs.declared.dispatcher_end.DispatcherEnd.{DispatcherEnd};
ghost use Rattle.dispatch_loop.specs.declared.dispatcher_turn.DispatcherTurn.TheVariants.{Finished};
ghost use Rattle.dispatch_loop.specs.DispatcherState.{dispatcher_state_by};
ghost use Rattle.dispatch_loop.specs.DispatcherSnapshot.{dispatcher_with};
ghost use Rattle.dispatch_loop.specs.Stays.{IsTied};
ghost use Rattle.run_shifts.specs.DispatcherTurns.{Leads, HasFinished};
ghost use Rattle.run_shifts.specs.Parties.{party_snapshot, party_state_by, SameEnds};

use crate::turning::PATIENCE;
use balancer::Balancer;
use bucket_table::BucketTable;
use core_queue::{LaneOut, SenderEnd, SenderPass};
use dispatch_loop::{Dispatcher, DispatcherEnd, DispatcherTurn};
use flow_work::FlowWork;
use handover_words::{Shelf, ShelfEnd, ShelfSeat, Shelved};
use load_meter::{MeterEnd, ReadLoad};
use packet_fields::RunName;
use packet_pool::{Pool, PoolEnd};
use pcap_reader::Reader;
use rss_base::Source;
use std::marker::Model;
use std::sync::Wait;
use std::thread;

/// The dispatcher of a run with its reader and its ends, which live through all shifts.
pub struct DispatcherParty<'a, W: FlowWork, N: RunName, R> {
    pub dispatcher: Dispatcher<W, Balancer>,
    pub reader: Reader,
    pub lanes: Vec<SenderEnd<'a, R, N>>,
    pub shelf: ShelfEnd<'a, BucketTable<W>, N>,
    pub pool: PoolEnd<'a, R>,
    pub meter: MeterEnd<'a>,
}

impl<'a, W: FlowWork, N: RunName, R> Model for DispatcherParty<'a, W, N, R> {
    ghost use Rattle.run_shifts.specs.Parties.{DispatcherPartyView};

    ghost Value = { DispatcherPartyView };

    ghost view = { λ d. record { dispatcher = d.dispatcher; reader = d.reader; lanes = d.lanes.items; shelf = d.shelf; pool = d.pool; meter = d.meter } };
}

// One turn of a dispatcher.
fn one_dispatch<
    N: RunName,
    W: FlowWork,
    S: Source,
    LO: LaneOut<N>,
    T: Shelved<N>,
    H: Shelf<T, N>,
    P: Pool,
    M: ReadLoad,
>(
    dispatcher: &mut Dispatcher<W, Balancer>,
    work: &W,
    reader: &mut Reader,
    source: &mut S,
    lanes: &mut [LO],
    shelf: &mut H,
    pool: &mut P,
    meter: &mut M,
) -> DispatcherTurn
    requires { IsTied N.packets (dispatcher_with LO.LaneEnd P.Pool H.Shelf M.LoadEnd S.Source (dispatcher_state_by W.cost_of dispatcher.old) lanes.old pool.old shelf.old meter.old reader.old source.old) }
    ensures leads { Leads N.packets (dispatcher_with LO.LaneEnd P.Pool H.Shelf M.LoadEnd S.Source (dispatcher_state_by W.cost_of dispatcher.old) lanes.old pool.old shelf.old meter.old reader.old source.old) (dispatcher_with LO.LaneEnd P.Pool H.Shelf M.LoadEnd S.Source (dispatcher_state_by W.cost_of dispatcher.new) lanes.new pool.new shelf.new meter.new reader.new source.new) }
    ensures finished { (end : DispatcherEnd) → result ≡ Finished end → HasFinished end (dispatcher_state_by W.cost_of dispatcher.new) }
    ensures homes { (map LO.home lanes.new ≡ map LO.home lanes.old) × (P.home pool.new ≡ P.home pool.old) × (H.home shelf.new ≡ H.home shelf.old) × (M.home meter.new ≡ M.home meter.old) }
    ensures origin { S.origin source.new ≡ S.origin source.old }
{
    dispatcher.turn::<N, S, LO, T, H, P, M>(work, reader, source, lanes, shelf, pool, meter)
}

/// Takes turns until the dispatcher has finished, or found no cell or no room too often in a row.
/// Answers how the stream ended, where it has finished.
pub(crate) fn dispatch_turns<
    N: RunName,
    W: FlowWork,
    S: Source,
    LO: LaneOut<N>,
    T: Shelved<N>,
    H: Shelf<T, N>,
    P: Pool,
    M: ReadLoad,
    R: Wait,
>(
    rt: &R,
    dispatcher: &mut Dispatcher<W, Balancer>,
    work: &W,
    reader: &mut Reader,
    source: &mut S,
    lanes: &mut [LO],
    shelf: &mut H,
    pool: &mut P,
    meter: &mut M,
) -> Option<DispatcherEnd>
    requires { IsTied N.packets (dispatcher_with LO.LaneEnd P.Pool H.Shelf M.LoadEnd S.Source (dispatcher_state_by W.cost_of dispatcher.old) lanes.old pool.old shelf.old meter.old reader.old source.old) }
    ensures leads { Leads N.packets (dispatcher_with LO.LaneEnd P.Pool H.Shelf M.LoadEnd S.Source (dispatcher_state_by W.cost_of dispatcher.old) lanes.old pool.old shelf.old meter.old reader.old source.old) (dispatcher_with LO.LaneEnd P.Pool H.Shelf M.LoadEnd S.Source (dispatcher_state_by W.cost_of dispatcher.new) lanes.new pool.new shelf.new meter.new reader.new source.new) }
    ensures finished { IfSome result (λ end. HasFinished end (dispatcher_state_by W.cost_of dispatcher.new)) }
    ensures homes { (map LO.home lanes.new ≡ map LO.home lanes.old) × (P.home pool.new ≡ P.home pool.old) × (H.home shelf.new ≡ H.home shelf.old) × (M.home meter.new ≡ M.home meter.old) }
    ensures origin { S.origin source.new ≡ S.origin source.old }
{
    let mut held = 0u32;
    for _ in rt.forever() {
        match one_dispatch::<N, W, S, LO, T, H, P, M>(
            dispatcher, work, reader, source, lanes, shelf, pool, meter,
        ) {
            DispatcherTurn::Finished(end) => return Some(end),
            DispatcherTurn::NoCell | DispatcherTurn::LaneFull { .. } if held + 1 == PATIENCE => {
                return None;
            }
            DispatcherTurn::NoCell | DispatcherTurn::LaneFull { .. } => {
                held += 1;
                thread::yield_now();
            }
            _ => held = 0,
        }
    }
    unreachable!()
}

/// A shift of the dispatcher.
pub(crate) fn dispatch_shift<W: FlowWork + Drop, N: RunName + Drop, S: Source, R: Wait>(
    rt: &R,
    dispatcher_party: &mut DispatcherParty<'_, W, N, R>,
    work: &W,
    source: &mut S,
) -> Option<DispatcherEnd>
    requires { IsTied N.packets (party_snapshot {T = TableOf W.State} (party_state_by W.cost_of dispatcher_party.old) (S.left source.old) (S.faults source.old)) }
    ensures leads { Leads N.packets (party_snapshot {T = TableOf W.State} (party_state_by W.cost_of dispatcher_party.old) (S.left source.old) (S.faults source.old)) (party_snapshot (party_state_by W.cost_of dispatcher_party.new) (S.left source.new) (S.faults source.new)) }
    ensures finished { IfSome result (λ end. HasFinished end (dispatcher_state_by W.cost_of dispatcher_party.new.dispatcher)) }
    ensures ends { SameEnds (party_state_by W.cost_of dispatcher_party.old) (party_state_by W.cost_of dispatcher_party.new) }
    ensures origin { S.origin source.new ≡ S.origin source.old }
{
    dispatch_turns::<N, W, S, _, BucketTable<W>, _, _, _, R>(
        rt,
        &mut dispatcher_party.dispatcher,
        work,
        &mut dispatcher_party.reader,
        source,
        &mut dispatcher_party.lanes,
        &mut dispatcher_party.shelf,
        &mut dispatcher_party.pool,
        &mut dispatcher_party.meter,
    )
}

impl<'a, W: FlowWork + Drop, N: RunName + Drop, R> DispatcherParty<'a, W, N, R> {
    /// Gives back the dispatcher and its seat of the shelf, and the passes of its lanes into a list
    /// that has room for them.
    pub fn leave(
        self,
        passes: &mut Vec<SenderPass>,
    ) -> (Dispatcher<W, Balancer>, ShelfSeat<BucketTable<W>>)
        requires none { passes.old.items ≡ [] }
        requires room { length self.lanes ≤ vec_capacity passes.old }
        ensures dispatcher { result.0 ≡ self.entry.dispatcher }
        ensures seat { result.1 ≡ self.entry.shelf }
        ensures passes { passes.new.items ≡ self.entry.lanes }
    {
        let DispatcherParty {
            dispatcher,
            reader: _,
            lanes,
            shelf,
            pool: _,
            meter: _,
        } = self;
        for end in lanes {
            passes.push_reserved(end.into_pass());
        }
        (dispatcher, shelf.into_seat())
    }
}
