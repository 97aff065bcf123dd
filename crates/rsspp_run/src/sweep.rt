// A sweep over all parties of a run.
ghost use Rattle.std.specs.Prelude.{◌≡◌, ◌<◌, ◌≤◌, ◌+◌, ◌/◌, ◌^◌, ℕ, length};
ghost use Rattle.worker_loop.specs.Workload.{workload};
ghost use Rattle.dispatch_loop.specs.DispatcherState.{dispatcher_state_by};
ghost use Rattle.dispatch_loop.specs.Rules.{BlamesRead};
ghost use Rattle.dispatch_loop.specs.Terms.{cores_of};
ghost use Rattle.rsspp_run.specs.Serial.{number_after};
ghost use Rattle.rsspp_run.specs.Serial as numbers;
ghost use Rattle.rsspp_run.specs.Sweeps.{RunInputs, Sweeping, InSweep, SweepsOn, EndsSo, party_at, finish_of, finished_in, is_ended};

use crate::limits::MOST_SWEEPS;
use crate::local_run::LocalRun;
use balancer::Balancer;
use dispatch_loop::{Dispatcher, DispatcherEnd, DispatcherTurn};
use flow_work::FlowWork;
use packet_fields::RunName;
use pcap_reader::Reader;
use rss_base::Source;
use worker_loop::WorkerTurn;

/// What the parties answered in the turns of a sweep so far.
#[derive(Drop)]
pub(crate) struct Swept {
    /// Whether each worker of these turns had ended.
    over: bool,
    /// How the stream ended, where the dispatcher had finished.
    end: Option<DispatcherEnd>,
}

fn finished(turn: DispatcherTurn) -> Option<DispatcherEnd>
    ensures { result ≡ finish_of turn }
{
    match turn {
        DispatcherTurn::Finished(end) => Some(end),
        _ => None,
    }
}

fn has_ended(turn: WorkerTurn) -> bool
    ensures { result ≡ is_ended turn }
{
    matches!(turn, WorkerTurn::Ended)
}

// How the stream ended, where all parties had finished.
fn all_finished(swept: Swept) -> Option<DispatcherEnd>
    ensures { result ≡ finished_in swept.over swept.end }
{
    if swept.over { swept.end } else { None }
}

// Where a sweep begins among its parties, cyclically.
fn first_party(number: u32) -> usize
    ensures { result ≡ number / 65536 }
{
    (number / 65_536) as usize
}

// The number that the next sweep starts by.
fn following(number: u32) -> u32
    ensures { result ≡ numbers.following number }
{
    number.wrapping_mul(1_664_525).wrapping_add(1_013_904_223)
}

impl<W: FlowWork, N: RunName> LocalRun<W, N> {
    // The dispatcher and the workers.
    fn parties(&self) -> usize
        ensures value { result ≡ length self.now.workers + 1 }
        ensures bound { result ≤ 2 ^ 63 }
    {
        self.workers.len() + 1
    }

    // The turn of a party: party 0 is the dispatcher, and party c + 1 is worker c.
    fn give_turn<S: Source>(
        &mut self,
        party: usize,
        dispatcher: &mut Dispatcher<W, Balancer>,
        work: &W,
        reader: &mut Reader,
        source: &mut S,
        swept: &mut Swept,
    )
        requires in_sweep { (run : RunInputs) × (i : ℕ) × InSweep N.packets (workload W.opening W.after W.cost_of N.packets) run i swept.old.over swept.old.end (dispatcher_state_by W.cost_of dispatcher.old) self.old reader.old (S.left source.old) × (party ≡ party_at run i) × (i < cores_of run.terms + 1) }
        ensures in_sweep { (run : RunInputs) (i : ℕ) → InSweep N.packets (workload W.opening W.after W.cost_of N.packets) run i swept.old.over swept.old.end (dispatcher_state_by W.cost_of dispatcher.old) self.old reader.old (S.left source.old) → party ≡ party_at run i → i < cores_of run.terms + 1
            → InSweep N.packets (workload W.opening W.after W.cost_of N.packets) run (i + 1) swept.new.over swept.new.end (dispatcher_state_by W.cost_of dispatcher.new) self.new reader.new (S.left source.new) }
        ensures blames { (n : ℕ) → BlamesRead dispatcher.old.end n (S.faults source.old) → BlamesRead dispatcher.new.end n (S.faults source.new) }
        ensures origin { S.origin source.new ≡ S.origin source.old }
    {
        if party == 0 {
            let turn = self.dispatch(dispatcher, work, reader, source);
            swept.end = finished(turn);
        } else {
            let turn = self.work((party - 1) as u8, work);
            swept.over = swept.over && has_ended(turn);
        }
    }

    /// Gives each party one turn, cyclically from the one on that the number tells. Answers how the
    /// stream ended, where all parties had finished.
    pub(crate) fn sweep<S: Source>(
        &mut self,
        dispatcher: &mut Dispatcher<W, Balancer>,
        number: u32,
        work: &W,
        reader: &mut Reader,
        source: &mut S,
    ) -> Option<DispatcherEnd>
        requires sweeping { (run : RunInputs) × Sweeping N.packets (workload W.opening W.after W.cost_of N.packets) run (dispatcher_state_by W.cost_of dispatcher.old) self.old reader.old (S.left source.old) × (number ≡ number_after run.swept run.number) }
        ensures swept { (run : RunInputs) → Sweeping N.packets (workload W.opening W.after W.cost_of N.packets) run (dispatcher_state_by W.cost_of dispatcher.old) self.old reader.old (S.left source.old) → number ≡ number_after run.swept run.number
            → SweepsOn N.packets (workload W.opening W.after W.cost_of N.packets) run result (dispatcher_state_by W.cost_of dispatcher.new) self.new reader.new (S.left source.new) }
        ensures blames { (n : ℕ) → BlamesRead dispatcher.old.end n (S.faults source.old) → BlamesRead dispatcher.new.end n (S.faults source.new) }
        ensures origin { S.origin source.new ≡ S.origin source.old }
    {
        let parties = self.parties();
        let first = first_party(number);
        let mut swept = Swept {
            over: true,
            end: None,
        };
        'turns: for step in 0..parties {
            let party = (first + step) % parties;
            self.give_turn(party, dispatcher, work, reader, source, &mut swept);
        }
        all_finished(swept)
    }

    /// Sweeps until all parties have finished in one sweep. Answers how the stream ended. A run has
    /// fewer sweeps than the loop allows, since each but the last one takes a step.
    pub(crate) fn run_sweeps<S: Source>(
        &mut self,
        dispatcher: &mut Dispatcher<W, Balancer>,
        number: u32,
        work: &W,
        reader: &mut Reader,
        source: &mut S,
    ) -> DispatcherEnd
        requires sweeping { (run : RunInputs) × Sweeping N.packets (workload W.opening W.after W.cost_of N.packets) run (dispatcher_state_by W.cost_of dispatcher.old) self.old reader.old (S.left source.old) × (run.swept ≡ 0) × (number ≡ run.number) }
        ensures ended { (run : RunInputs) → Sweeping N.packets (workload W.opening W.after W.cost_of N.packets) run (dispatcher_state_by W.cost_of dispatcher.old) self.old reader.old (S.left source.old) → run.swept ≡ 0 → number ≡ run.number
            → EndsSo N.packets (workload W.opening W.after W.cost_of N.packets) run result (dispatcher_state_by W.cost_of dispatcher.new) self.new reader.new (S.left source.new) }
        ensures blames { (n : ℕ) → BlamesRead dispatcher.old.end n (S.faults source.old) → BlamesRead dispatcher.new.end n (S.faults source.new) }
        ensures origin { S.origin source.new ≡ S.origin source.old }
    {
        let mut next = number;
        'sweeps: for _ in 0..MOST_SWEEPS {
            match self.sweep(dispatcher, next, work, reader, source) {
                Some(end) => return end,
                None => next = following(next),
            }
        }
        unreachable!()
    }
}
