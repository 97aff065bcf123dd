// Sweeps over a dispatcher and two workers, each with ends of its own.
use crate::dispatcher_party::DispatcherParty;
use crate::worker_party::WorkerParty;
use dispatch_loop::{DispatcherEnd, DispatcherTurn};
use flow_work::FlowWork;
use packet_fields::RunName;
use std::sync::Wait;
use worker_loop::WorkerTurn;

/// What the parties answered in the turns of a sweep so far.
#[derive(Drop)]
struct Swept {
    over: bool,
    end: Option<DispatcherEnd>,
}

fn finished(turn: DispatcherTurn) -> Option<DispatcherEnd> {
    match turn {
        DispatcherTurn::Finished(end) => Some(end),
        _ => None,
    }
}

/// The dispatcher and the workers of the cores 0 and 1.
#[derive(Drop)]
pub(crate) struct Parties<'a, W: FlowWork, N: RunName, R> {
    pub(crate) dispatcher_party: DispatcherParty<'a, W, N, R>,
    pub(crate) first: WorkerParty<'a, W, N, R>,
    pub(crate) second: WorkerParty<'a, W, N, R>,
}

impl<'a, W: FlowWork + Drop, N: RunName + Drop, R: Wait> Parties<'a, W, N, R> {
    // The turn of a party: party 0 is the dispatcher, and party c + 1 is the worker of core c.
    fn give_turn(&mut self, party: u32, work: &W, swept: &mut Swept) {
        if party == 0 {
            swept.end = finished(self.dispatcher_party.turn(work));
            return;
        }
        let turn = if party == 1 {
            self.first.turn(work)
        } else {
            self.second.turn(work)
        };
        swept.over = swept.over && matches!(turn, WorkerTurn::Ended);
    }

    // Gives each party one turn, cyclically from the one on that the number tells. Answers how the
    // stream ended, where all parties had finished.
    fn sweep(&mut self, number: u32, work: &W) -> Option<DispatcherEnd> {
        let first = number / 65_536;
        let mut swept = Swept {
            over: true,
            end: None,
        };
        for step in 0..3u32 {
            self.give_turn((first + step) % 3, work, &mut swept);
        }
        if swept.over { swept.end } else { None }
    }

    /// Sweeps until all parties have finished in one sweep, at most so often. Answers how the
    /// stream ended, where they have.
    pub(crate) fn run(&mut self, number: u32, work: &W, most: u32) -> Option<DispatcherEnd> {
        let mut next = number;
        for _sweep in 0..most {
            let end = self.sweep(next, work);
            if end.is_some() {
                return end;
            }
            next = next.wrapping_mul(1_664_525).wrapping_add(1_013_904_223);
        }
        None
    }
}
