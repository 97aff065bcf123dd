// What the parties of a run leave at its end.
ghost use Rattle.std.specs.Prelude.{◌≡◌, ◌≢◌, ◌<◌, ◌↔◌, ℕ, List, Option, [], None, length, map, flat_map, false, All, IfOk, slice_index_or, IsPermutation};
ghost use Rattle.handover_words.specs.LocalShelf.{Closes};
ghost use Rattle.handover_words.specs.Stands.{IsTableOf};
ghost use Rattle.packet_fields.specs.declared.packet.PacketInfo.{PacketInfo};
ghost use Rattle.pcap_reader.specs.Reading.{Reading};
ghost use Rattle.worker_loop.specs.Workload.{workload};
ghost use Rattle.dispatch_loop.specs.DispatcherState.{dispatcher_state_by};
ghost use Rattle.dispatch_loop.specs.declared.dispatcher_end.DispatcherEnd.TheVariants.{AtEnd};
ghost use Rattle.dispatch_loop.specs.Terms.{buckets_of};
ghost use Rattle.rsspp_run.specs.Custody.{IsOrdered};
ghost use Rattle.rsspp_run.specs.Ends.{log_in, worked_in, IsSerialRun, AreTablesOf};
ghost use Rattle.rsspp_run.specs.Sweeps.{RunInputs, EndsSo};

use crate::RunEnd;
use crate::local_run::LocalRun;
use balancer::Balancer;
use bucket_table::{BucketTable, Custody};
use dispatch_loop::Dispatcher;
use flow_work::FlowWork;
use handover_words::LocalShelf;
use packet_fields::RunName;
use rss_base::NoMemory;
use std::alloc::Global;
use worker_loop::Worker;

/// Whether memory was refused to the log of a worker.
pub fn is_worker_short<W: FlowWork>(workers: &[Worker<W>]) -> bool
    ensures { (result ≡ false) ↔ All (λ w. w.state.short ≡ false) workers.now }
{
    for worker in workers {
        if worker.short() {
            return true;
        }
    }
    false
}

/// Whether memory was refused to a table.
pub fn is_table_short<W: FlowWork>(tables: &[BucketTable<W>]) -> bool
    ensures { (result ≡ false) ↔ All (λ t. t.short ≡ false) tables.now }
{
    for table in tables {
        if table.short() {
            return true;
        }
    }
    false
}

/// How many packets each worker worked.
pub fn worked_by_each<W: FlowWork>(
    alloc: Global,
    workers: &[Worker<W>],
) -> Result<Vec<u64>, NoMemory>
    ensures { IfOk result (λ counts. counts.items ≡ map worked_in workers.now) }
{
    let mut counts = Vec::new(alloc);
    for worker in workers {
        match counts.push(worker.worked()) {
            Ok(()) => {}
            Err(_) => return Err(NoMemory),
        }
    }
    Ok(counts)
}

// The custodies that all workers ended, worker by worker.
fn all_logs<W: FlowWork>(alloc: Global, workers: &[Worker<W>]) -> Result<Vec<Custody>, NoMemory>
    ensures { IfOk result (λ all. all.items ≡ flat_map log_in workers.now) }
{
    let mut all = Vec::new(alloc);
    for worker in workers {
        match all.extend_from_slice(worker.log()) {
            Ok(()) => {}
            Err(_) => return Err(NoMemory),
        }
    }
    Ok(all)
}

/// The custodies that all workers ended, by bucket and then by place.
pub fn custody_of<W: FlowWork>(
    alloc: Global,
    workers: &[Worker<W>],
) -> Result<Vec<Custody>, NoMemory>
    ensures all { IfOk result (λ custody. IsPermutation (flat_map log_in workers.now) custody.items) }
    ensures ordered { IfOk result (λ custody. IsOrdered custody.items) }
{
    let mut all = all_logs(alloc, workers)?;
    match all.sort_by_key(|ended| (ended.bucket, ended.from)) {
        Ok(()) => Ok(all),
        Err(_) => Err(NoMemory),
    }
}

/// The tables of all buckets, in order, from a shelf on which all of them lie.
pub(crate) fn tables_of<W: FlowWork, N: RunName>(
    alloc: Global,
    shelf: LocalShelf<BucketTable<W>, N>,
    buckets: u16,
) -> Result<Vec<BucketTable<W>>, NoMemory>
    requires home { (b : ℕ) → b < length shelf.homes → slice_index_or shelf.homes b None ≢ None }
    requires buckets { shelf.history.buckets ≡ buckets }
    ensures { IfOk result (λ tables. Closes (IsTableOf W.opening W.after N.packets) shelf [] tables.items) }
{
    let Ok(mut tables) = Vec::with_capacity(alloc, buckets as usize) else {
        return Err(NoMemory);
    };
    shelf.close(&mut tables);
    Ok(tables)
}

/// What a run that has ended came to, unless a table, a log or the journal is short of memory.
pub(crate) fn finish<W: FlowWork, N: RunName>(
    alloc: Global,
    dispatcher: Dispatcher<W, Balancer>,
    local: LocalRun<W, N>,
    buckets: u16,
) -> Result<RunEnd<W>, NoMemory>
    requires ended { (run : RunInputs) × (reader : Reading) × (left : Option (List ℕ)) × EndsSo N.packets (workload W.opening W.after W.cost_of N.packets) run AtEnd (dispatcher_state_by W.cost_of dispatcher) local reader left × (buckets ≡ buckets_of run.terms) }
    ensures run { IfOk result (λ end. (run : RunInputs) (reader : Reading) (left : Option (List ℕ)) → (ended : EndsSo N.packets (workload W.opening W.after W.cost_of N.packets) run AtEnd (dispatcher_state_by W.cost_of dispatcher) local reader left)
        → IsSerialRun run.terms run.pool run.number ended.sent end.journal end.custody.items end.worked.items × AreTablesOf W.opening W.after N.packets run.terms ended.sent end.tables.items) }
    ensures alone { IfOk result (λ end. (end.notes.items ≡ []) × (end.shelf ≡ None)) }
{
    let LocalRun { workers, shelf, .. } = local;
    if dispatcher.short() {
        return Err(NoMemory);
    }
    if is_worker_short(&workers) {
        return Err(NoMemory);
    }
    let worked = worked_by_each(alloc, &workers)?;
    let custody = custody_of(alloc, &workers)?;
    let tables = tables_of(alloc, shelf, buckets)?;
    if is_table_short(&tables) {
        return Err(NoMemory);
    }
    Ok(RunEnd {
        tables,
        custody,
        journal: dispatcher.into_journal(),
        worked,
        notes: Vec::new(alloc),
        shelf: None,
    })
}
