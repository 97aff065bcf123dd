// One turn.
ghost use Rattle.std.specs.Prelude.{◌≡◌, map};
ghost use Rattle.dispatch_loop.specs.DispatcherSnapshot.{dispatcher_with};
ghost use Rattle.dispatch_loop.specs.Rules.{IsTurn, OnlyMeets};
ghost use Rattle.dispatch_loop.specs.Sends.{IsLoneLink};
ghost use Rattle.dispatch_loop.specs.Stays.{StaysTied, IsTied};
ghost use Rattle.dispatch_loop.specs.Views.{dispatcher_state};
ghost use Rattle.dispatch_loop.specs.Fit.{IsFit};

use crate::DispatcherTurn;
use crate::act::act;
use crate::round::pass_round;
use crate::state::State;
use balancer::Policy;
use core_queue::LaneOut;
use flow_work::FlowWork;
use handover_words::{Shelf, Shelved};
use load_meter::ReadLoad;
use packet_fields::RunName;
use packet_pool::Pool;
use pcap_reader::Reader;
use rss_base::Source;

/// Makes the round that is due, or does the first other rule that is.
pub(crate) fn turn_of<
    N: RunName,
    W: FlowWork,
    B: Policy,
    S: Source,
    LO: LaneOut<N>,
    T: Shelved<N>,
    H: Shelf<T, N>,
    P: Pool,
    M: ReadLoad,
>(
    work: &W,
    state: &mut State<B>,
    reader: &mut Reader,
    source: &mut S,
    lanes: &mut [LO],
    shelf: &mut H,
    pool: &mut P,
    meter: &mut M,
) -> DispatcherTurn
    requires fit { IsFit B.stated B.proposals state.old }
    requires lone { IsLoneLink state.old.spare }
    requires tied { IsTied N.packets (dispatcher_with LO.LaneEnd P.Pool H.Shelf M.LoadEnd S.Source (dispatcher_state W.cost_of state.old) lanes.old pool.old shelf.old meter.old reader.old source.old) }
    ensures tied { StaysTied N.packets result (dispatcher_with LO.LaneEnd P.Pool H.Shelf M.LoadEnd S.Source (dispatcher_state W.cost_of state.old) lanes.old pool.old shelf.old meter.old reader.old source.old) (dispatcher_with LO.LaneEnd P.Pool H.Shelf M.LoadEnd S.Source (dispatcher_state W.cost_of state.new) lanes.new pool.new shelf.new meter.new reader.new source.new) }
    ensures rule { IsTurn (dispatcher_with LO.LaneEnd P.Pool H.Shelf M.LoadEnd S.Source (dispatcher_state W.cost_of state.old) lanes.old pool.old shelf.old meter.old reader.old source.old) result (dispatcher_with LO.LaneEnd P.Pool H.Shelf M.LoadEnd S.Source (dispatcher_state W.cost_of state.new) lanes.new pool.new shelf.new meter.new reader.new source.new) }
    ensures homes { (map LO.home lanes.new ≡ map LO.home lanes.old) × (P.home pool.new ≡ P.home pool.old) × (H.home shelf.new ≡ H.home shelf.old) × (M.home meter.new ≡ M.home meter.old) }
    ensures shelf { OnlyMeets (H.history shelf.old) (H.history shelf.new) }
    ensures fit { IsFit B.stated B.proposals state.new }
    ensures lone { IsLoneLink state.new.spare }
    ensures origin { S.origin source.new ≡ S.origin source.old }
{
    if pass_round::<W, B, M>(state, meter) {
        return DispatcherTurn::Round;
    }
    act::<N, W, B, S, LO, T, H, P>(work, state, reader, source, lanes, shelf, pool)
}
