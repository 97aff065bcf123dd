// The first rule: a round.
ghost use Rattle.std.specs.Prelude.{◌≡◌, ◌≤◌, ℕ, List, length, slice_index, if◌then◌else◌};
ghost use Rattle.balancer.specs.Moves.{AreMoves};
ghost use Rattle.dispatch_loop.specs.Terms.{cores_of, buckets_of};
ghost use Rattle.dispatch_loop.specs.Does.{ReadsAll, bases_of, loads_of, with_round, without_round};
ghost use Rattle.dispatch_loop.specs.Rules.{Rounded};
ghost use Rattle.dispatch_loop.specs.Views.{dispatcher_state, CanWeigh};
ghost use Rattle.dispatch_loop.specs.Fit.{IsFit};

use crate::rounds::propose;
use crate::state::State;
use balancer::Policy;
use flow_work::FlowWork;
use indirection::{Loads, MOST_CORES};
use load_meter::ReadLoad;

// Reads the meter, and weighs the costs of what was sent to each core and isn't worked yet.
fn weigh<M: ReadLoad>(sent_to: &[u64], loads: &mut Loads, meter: &mut M)
    requires bases { length sent_to.now ≡ length loads.old.base }
    requires cores { length sent_to.now ≤ (M.history meter.old).cores }
    requires few { length sent_to.now ≤ MOST_CORES }
    ensures home { M.home meter.new ≡ M.home meter.old }
    ensures weighs { (readings : List ℕ) × ReadsAll (length sent_to.now) readings (M.history meter.old) (M.now meter.old) (M.history meter.new) (M.now meter.new)
        × (loads.new ≡ record loads.old { base = bases_of sent_to.now readings }) }
{
    for core in 0..sent_to.len() as u8 {
        let worked = meter.read(core);
        loads.set_base(core, sent_to[core as usize].saturating_sub(worked));
    }
}

/// Makes the round that is due. Answers whether the journal took it: where memory is refused to it,
/// the dispatcher is short from then on.
pub(crate) fn make_round<W: FlowWork, B: Policy, M: ReadLoad>(
    state: &mut State<B>,
    meter: &mut M,
) -> bool
    requires fit { IsFit B.stated B.proposals state.old }
    requires can { CanWeigh state.old }
    requires cores { cores_of (dispatcher_state W.cost_of state.old).terms ≤ (M.history meter.old).cores }
    ensures home { M.home meter.new ≡ M.home meter.old }
    ensures fit { IsFit B.stated B.proposals state.new }
    ensures spare { state.new.spare ≡ state.old.spare }
    ensures moves { AreMoves (cores_of (dispatcher_state W.cost_of state.old).terms) (buckets_of (dispatcher_state W.cost_of state.old).terms) (dispatcher_state W.cost_of state.new).proposals }
    ensures made { (readings : List ℕ) × ReadsAll (cores_of (dispatcher_state W.cost_of state.old).terms) readings (M.history meter.old) (M.now meter.old) (M.history meter.new) (M.now meter.new)
        × (dispatcher_state W.cost_of state.new ≡ (if result then with_round (dispatcher_state W.cost_of state.old) (loads_of (dispatcher_state W.cost_of state.old) readings) else without_round (dispatcher_state W.cost_of state.old))) }
{
    weigh(&state.routing.sent_to, &mut state.rounds.loads, meter);
    propose(
        &mut state.rounds.policy,
        &mut state.rounds.proposals,
        &state.rounds.loads,
        &state.routing.table,
        state.rounds.limit,
    );
    let noted = state.journal.push_round(
        state.routing.sent,
        &state.rounds.loads,
        &state.rounds.proposals,
    );
    if noted.is_err() {
        state.rounds.refuse();
        return false;
    }
    state.rounds.begin();
    true
}

/// Makes the round, where one is due. Answers whether the journal took it.
pub(crate) fn pass_round<W: FlowWork, B: Policy, M: ReadLoad>(
    state: &mut State<B>,
    meter: &mut M,
) -> bool
    requires fit { IsFit B.stated B.proposals state.old }
    requires can { CanWeigh state.old }
    requires cores { cores_of (dispatcher_state W.cost_of state.old).terms ≤ (M.history meter.old).cores }
    ensures home { M.home meter.new ≡ M.home meter.old }
    ensures fit { IsFit B.stated B.proposals state.new }
    ensures spare { state.new.spare ≡ state.old.spare }
    ensures rounded { Rounded result (dispatcher_state W.cost_of state.old) (dispatcher_state W.cost_of state.new) (M.history meter.old) (M.now meter.old) (M.history meter.new) (M.now meter.new) }
{
    if !state.rounds.is_due() {
        return false;
    }
    make_round::<W, B, M>(state, meter)
}
