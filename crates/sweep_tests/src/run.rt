// A run from its opening to its end.
ghost use Rattle.std.specs.Prelude.{◌≡◌, Some};
ghost use Rattle.dispatch_loop.specs.Accepted.{IsAccepted};
ghost use Rattle.dispatch_loop.specs.Past.{AreNamed};

use crate::opening::{Opened, open};
use crate::parties::{dispatcher_party, worker_party};
use crate::sweeps::Parties;
use balancer::Balancer;
use bucket_table::BucketTable;
use dispatch_loop::{Dispatcher, DispatcherEnd, Options};
use flow_work::FlowWork;
use packet_fields::RunName;
use std::alloc::Global;
use std::sync::Wait;
use std::test::Fail;
use worker_loop::Worker;

/// What is left of a run.
#[derive(Drop)]
pub(crate) struct Ran<W: FlowWork> {
    /// How the stream ended, where all parties finished.
    pub(crate) end: Option<DispatcherEnd>,
    pub(crate) dispatcher: Dispatcher<W, Balancer>,
    /// The table of bucket 0, where it lay on the shelf with as many packets done as the run may
    /// have.
    pub(crate) table: Option<BucketTable<W>>,
    pub(crate) first: Worker<W>,
    pub(crate) second: Worker<W>,
}

// What parties leave whose stream ended so, with the table where it has so many packets done.
fn left<'a, W: FlowWork + Drop, N: RunName + Drop, R: Wait>(
    parties: Parties<'a, W, N, R>,
    end: Option<DispatcherEnd>,
    done: u32,
) -> Ran<W> {
    let Parties {
        dispatcher_party,
        first,
        second,
    } = parties;
    let (dispatcher, table) = dispatcher_party.leave(0, done);
    Ran {
        end,
        dispatcher,
        table,
        first: first.leave(),
        second: second.leave(),
    }
}

/// Runs a capture for two cores in sweeps that the number orders, at most a thousand.
pub(crate) fn run<W: FlowWork + Drop, N: RunName + Drop, R: Wait>(
    rt: &R,
    alloc: Global,
    options: &Options,
    work: &W,
    bytes: Vec<u8>,
    number: u32,
) -> Result<Ran<W>, Fail>
    requires accepted { IsAccepted options.now }
    requires cores { options.now.cores ≡ 2 }
    requires named { AreNamed N.packets options.now.packets (Some bytes.items) }
{
    let Opened {
        shared,
        own,
        first,
        second,
    } = open::<W, N, R>(rt, alloc, options)?;
    let mut parties = Parties {
        dispatcher_party: dispatcher_party(rt, alloc, options, bytes, &shared, own)?,
        first: worker_party(rt, alloc, 0, options, &shared.first, &shared, first)?,
        second: worker_party(rt, alloc, 1, options, &shared.second, &shared, second)?,
    };
    let end = parties.run(number, work, 1_000);
    Ok(left(parties, end, options.packets))
}
