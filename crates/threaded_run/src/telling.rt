// What a run came to.
ghost use Rattle.std.specs.Prelude.{◌≡◌, false, map, flat_map, All, IfOk, Some, IsPermutation};
ghost use Rattle.rsspp_run.specs.Custody.{IsOrdered};
ghost use Rattle.rsspp_run.specs.Ends.{log_in, worked_in};

use crate::closing::Left;
use balancer::Balancer;
use dispatch_loop::Dispatcher;
use flow_work::FlowWork;
use rss_base::NoMemory;
use rsspp_run::{RunEnd, custody_of, is_table_short, is_worker_short, worked_by_each};
use std::alloc::Global;

/// What a run came to, unless a table, a log or the journal is short of memory.
pub(crate) fn tell<W: FlowWork>(
    alloc: Global,
    dispatcher: Dispatcher<W, Balancer>,
    left: Left<W>,
) -> Result<RunEnd<W>, NoMemory>
    ensures fine { IfOk result (λ end. (dispatcher.short ≡ false) × All (λ w. w.state.short ≡ false) left.workers.items × All (λ t. t.short ≡ false) left.tables.items) }
    ensures journal { IfOk result (λ end. end.journal ≡ dispatcher.journal) }
    ensures custody { IfOk result (λ end. IsOrdered end.custody.items × IsPermutation (flat_map log_in left.workers.items) end.custody.items) }
    ensures worked { IfOk result (λ end. end.worked.items ≡ map worked_in left.workers.items) }
    ensures kept { IfOk result (λ end. (end.tables.items ≡ left.tables.items) × (end.notes.items ≡ left.notes.items) × (end.shelf ≡ Some left.shelf)) }
{
    let Left {
        tables,
        workers,
        notes,
        shelf,
    } = left;
    if dispatcher.short() {
        return Err(NoMemory);
    }
    if is_worker_short(&workers) {
        return Err(NoMemory);
    }
    if is_table_short(&tables) {
        return Err(NoMemory);
    }
    let worked = worked_by_each(alloc, &workers)?;
    let custody = custody_of(alloc, &workers)?;
    Ok(RunEnd {
        tables,
        custody,
        journal: dispatcher.into_journal(),
        worked,
        notes,
        shelf: Some(shelf),
    })
}
