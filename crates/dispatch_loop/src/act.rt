// A turn behind its round: the first rule that is due.
ghost use Rattle.std.specs.Prelude.{◌≡◌, ◌≢◌, ◌⊎◌, ℕ, List, Option, map, length, None};
ghost use Rattle.indirection.specs.Due.{RoundDue};
ghost use Rattle.load_meter.specs.declared.history.LoadHistory.{LoadHistory};
ghost use Rattle.dispatch_loop.specs.Asks.{due_now};
ghost use Rattle.dispatch_loop.specs.Past.{Past, IsFed};
ghost use Rattle.dispatch_loop.specs.DispatcherSnapshot.{dispatcher_snapshot, outs_with};
ghost use Rattle.dispatch_loop.specs.Rules.{Acts, Fetched};
ghost use Rattle.dispatch_loop.specs.Sends.{IsLoneLink};
ghost use Rattle.dispatch_loop.specs.Stays.{StaysTied, IsTied};
ghost use Rattle.dispatch_loop.specs.Views.{dispatcher_state};
ghost use Rattle.dispatch_loop.specs.Fit.{IsFit};

use crate::DispatcherTurn;
use crate::attempt::{next_asked, try_asked};
use crate::finish::send_end;
use crate::intake::read_next;
use crate::packet::send_packet;
use crate::state::State;
use balancer::Policy;
use core_queue::LaneOut;
use flow_work::FlowWork;
use handover_words::{Shelf, Shelved};
use packet_fields::RunName;
use packet_pool::Pool;
use pcap_reader::Reader;
use rss_base::Source;

// Reads the next record, where no packet is held and the stream goes on.
fn fetch<W: FlowWork, B: Policy, S: Source>(
    state: &mut State<B>,
    reader: &mut Reader,
    source: &mut S,
)
    requires { (p : Past) × IsFed state.old.packets p state.old.held state.old.end reader.old (S.left source.old) × (length p.packets ≡ state.old.routing.sent) }
    ensures fed { (p : Past) → IsFed state.old.packets p state.old.held state.old.end reader.old (S.left source.old) → length p.packets ≡ state.old.routing.sent → IsFed state.old.packets p state.new.held state.new.end reader.new (S.left source.new) }
    ensures has { (state.new.held ≢ None) ⊎ (state.new.end ≢ None) }
    ensures fetched { Fetched (dispatcher_state W.cost_of state.old) (dispatcher_state W.cost_of state.new) reader.old reader.new (S.left source.old) (S.left source.new) (S.faults source.old) (S.faults source.new) }
    ensures rest { state.new ≡ record state.old { held = state.new.held; end = state.new.end } }
    ensures origin { S.origin source.new ≡ S.origin source.old }
{
    if state.held.is_some() || state.end.is_some() {
        return;
    }
    match read_next(state.packets, state.routing.sent, reader, source) {
        Ok(packet) => state.held = Some(packet),
        Err(end) => state.end = Some(end),
    }
}

/// Does the first rule that is due, where no round is. It doesn't touch the meter, whatever that
/// has counted.
pub(crate) fn act<
    N: RunName,
    W: FlowWork,
    B: Policy,
    S: Source,
    LO: LaneOut<N>,
    T: Shelved<N>,
    H: Shelf<T, N>,
    P: Pool,
>(
    work: &W,
    state: &mut State<B>,
    reader: &mut Reader,
    source: &mut S,
    lanes: &mut [LO],
    shelf: &mut H,
    pool: &mut P,
) -> DispatcherTurn
    requires fit { IsFit B.stated B.proposals state.old }
    requires lone { IsLoneLink state.old.spare }
    requires none_due { due_now (dispatcher_state W.cost_of state.old) ≢ RoundDue }
    requires tied { (m : LoadHistory) × (n : Option (List ℕ)) × IsTied N.packets (dispatcher_snapshot (dispatcher_state W.cost_of state.old) (outs_with LO.LaneEnd P.Pool lanes.old pool.old) (H.history shelf.old) (H.now shelf.old) m n reader.old (S.left source.old) (S.faults source.old)) }
    ensures tied { (m : LoadHistory) (n : Option (List ℕ)) → StaysTied N.packets result (dispatcher_snapshot (dispatcher_state W.cost_of state.old) (outs_with LO.LaneEnd P.Pool lanes.old pool.old) (H.history shelf.old) (H.now shelf.old) m n reader.old (S.left source.old) (S.faults source.old)) (dispatcher_snapshot (dispatcher_state W.cost_of state.new) (outs_with LO.LaneEnd P.Pool lanes.new pool.new) (H.history shelf.new) (H.now shelf.new) m n reader.new (S.left source.new) (S.faults source.new)) }
    ensures rule { (m : LoadHistory) (n : Option (List ℕ)) → Acts result (dispatcher_snapshot (dispatcher_state W.cost_of state.old) (outs_with LO.LaneEnd P.Pool lanes.old pool.old) (H.history shelf.old) (H.now shelf.old) m n reader.old (S.left source.old) (S.faults source.old)) (dispatcher_snapshot (dispatcher_state W.cost_of state.new) (outs_with LO.LaneEnd P.Pool lanes.new pool.new) (H.history shelf.new) (H.now shelf.new) m n reader.new (S.left source.new) (S.faults source.new)) }
    ensures homes { (map LO.home lanes.new ≡ map LO.home lanes.old) × (P.home pool.new ≡ P.home pool.old) × (H.home shelf.new ≡ H.home shelf.old) }
    ensures fit { IsFit B.stated B.proposals state.new }
    ensures lone { IsLoneLink state.new.spare }
    ensures origin { S.origin source.new ≡ S.origin source.old }
{
    if let Some(asked) = next_asked::<W, B>(state) {
        return try_asked::<N, W, B, LO, T, H, P>(state, asked, lanes, shelf, pool);
    }
    fetch::<W, B, S>(state, reader, source);
    match state.held {
        Some(packet) => send_packet::<N, W, B, LO, P>(work, state, &packet, lanes, pool),
        None => send_end::<N, W, B, LO>(state, lanes),
    }
}
