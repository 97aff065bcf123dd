// Turns in a row, over whichever ends.
ghost use Rattle.std.specs.Prelude.{map};
ghost use Rattle.dispatch_loop.specs.DispatcherState.{dispatcher_state_by};
ghost use Rattle.dispatch_loop.specs.Rules.{OnlyMeets};
ghost use Rattle.dispatch_loop.specs.DispatcherSnapshot.{dispatcher_with};
ghost use Rattle.dispatch_loop.specs.Stays.{IsTied};

use balancer::Policy;
use core_queue::LaneOut;
use dispatch_loop::{Dispatcher, DispatcherEnd, DispatcherTurn};
use flow_work::FlowWork;
use handover_words::{Shelf, Shelved};
use load_meter::ReadLoad;
use packet_fields::RunName;
use packet_pool::Pool;
use pcap_reader::Reader;
use rss_base::Source;

/// Gives the dispatcher turns until it has finished, at most so many. Answers how the stream ended,
/// where it finished.
pub(crate) fn finish<
    N: RunName,
    W: FlowWork,
    B: Policy,
    S: Source,
    LO: LaneOut<N>,
    T: Shelved<N>,
    H: Shelf<T, N>,
    P: Pool,
    M: ReadLoad,
>(
    dispatcher: &mut Dispatcher<W, B>,
    work: &W,
    reader: &mut Reader,
    source: &mut S,
    lanes: &mut [LO],
    shelf: &mut H,
    pool: &mut P,
    meter: &mut M,
    most: u32,
) -> Option<DispatcherEnd>
    requires tied { IsTied N.packets (dispatcher_with LO.LaneEnd P.Pool H.Shelf M.LoadEnd S.Source (dispatcher_state_by W.cost_of dispatcher.old) lanes.old pool.old shelf.old meter.old reader.old source.old) }
    ensures tied { IsTied N.packets (dispatcher_with LO.LaneEnd P.Pool H.Shelf M.LoadEnd S.Source (dispatcher_state_by W.cost_of dispatcher.new) lanes.new pool.new shelf.new meter.new reader.new source.new) }
    ensures shelf { OnlyMeets (H.history shelf.old) (H.history shelf.new) }
{
    for _turn in 0..most {
        let turn = dispatcher.turn::<N, S, LO, T, H, P, M>(
            work, reader, source, lanes, shelf, pool, meter,
        );
        if let DispatcherTurn::Finished(end) = turn {
            return Some(end);
        }
    }
    None
}
