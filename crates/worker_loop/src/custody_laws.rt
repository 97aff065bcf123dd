// Laws of the custodies that a worker ends, and of what its end of a shelf holds.
ghost use Rattle.std.specs.Prelude.{◌≡◌, ◌<◌, ℕ, List, [], ◌++◌, map, true, Option};
ghost use Rattle.bucket_table.specs.Table.{TableOf};
ghost use Rattle.packet_pool.specs.declared.cell.Facts.{Facts};
ghost use Rattle.indirection.specs.JournalView.{JournalView};
ghost use Rattle.indirection.specs.Story.{Parcel};
ghost use Rattle.indirection.specs.Stints.{stints};
ghost use Rattle.indirection.specs.Due.{Rules};
ghost use Rattle.indirection.specs.Lawful.{IsLawfulSoFar};
ghost use Rattle.handover_core.specs.Dispatch.{stream, dispatches};
ghost use Rattle.handover_core.specs.Spans.{no_spans, spans_of, spans_in, spans_at};
ghost use Rattle.core_queue.specs.declared.item.Seen.{Seen};
ghost use Rattle.core_queue.specs.Cells.{plain};
ghost use Rattle.parked_queue.specs.Parked.{cells_at, AllEmpty};
ghost use Rattle.handover_words.specs.declared.history.Stretch.{Stretch};
ghost use Rattle.handover_words.specs.declared.history.ShelfHistory.{ShelfHistory};
ghost use Rattle.handover_words.specs.Stock.{Stock};
ghost use Rattle.worker_loop.specs.declared.worker_turn.WorkerTurn.{WorkerTurn};
ghost use Rattle.worker_loop.specs.declared.worker_turn.WorkerTurn.TheVariants.{Ended};
ghost use Rattle.toeplitz.specs.declared.bucket_hash.BucketHash.{BucketHash};
ghost use Rattle.worker_loop.specs.Workload.{Workload};
ghost use Rattle.worker_loop.specs.WorkerState.{WorkerState};
ghost use Rattle.worker_loop.specs.Fresh.{fresh_worker_state};
ghost use Rattle.worker_loop.specs.Chains.{cells_of};
ghost use Rattle.worker_loop.specs.Tied.{Tied, slot_at};
ghost use Rattle.worker_loop.specs.WorkerSnapshot.{WorkerSnapshot, NoneLeaves, NoneHeld};
ghost use Rattle.worker_loop.specs.Rules.{IsTurn};
ghost use Rattle.worker_loop.specs.Custodies.{AllHaveSpans, LogHasSpans, SeatHasSpans, AreEntries, cell_spans, ended_spans, in_hand, ends_by};
ghost use Rattle.worker_loop.specs.Seats.{HeldBy, Logged, HoldsByWord};

use flow_work::FlowWork;

/// The custodies of a bucket that a worker's turns ended, and then that of its table if it has it,
/// are the stretches of the bucket's cells that it is done with. The same holds of its log, unless
/// it is short, and of what an end of its own ended. Where the worker has ended, they are the
/// stretches of all that was taken; and where that is its core's stream of a lawful journal, they
/// are the stints that the core has of that journal.
pub fn custodies_are_stretches<W: FlowWork>()
    ensures kept { (j : Workload W.State) (s t : WorkerSnapshot (TableOf W.State)) (turn : WorkerTurn) (done : List Stretch)
        → Tied j s.worker s.lane s.shelf s.meter → IsTurn j s turn t → AllHaveSpans s.worker s.lane.taken done → AllHaveSpans t.worker t.lane.taken (done ++ ends_by turn s.worker) }
    ensures log { (j : Workload W.State) (s t : WorkerSnapshot (TableOf W.State)) (turn : WorkerTurn)
        → Tied j s.worker s.lane s.shelf s.meter → IsTurn j s turn t → LogHasSpans s.worker s.lane → LogHasSpans t.worker t.lane }
    ensures seat { (j : Workload W.State) (s t : WorkerSnapshot (TableOf W.State)) (turn : WorkerTurn)
        → Tied j s.worker s.lane s.shelf s.meter → IsTurn j s turn t → SeatHasSpans s.worker s.lane s.shelf → SeatHasSpans t.worker t.lane t.shelf }
    ensures equal { (w : WorkerState (TableOf W.State)) (taken : List Seen) (done : List Stretch) (b : ℕ) → AllHaveSpans w taken done → b < w.run.buckets
        → (over : List Facts) × (cells_of b taken ≡ over ++ cells_at b w.lot) × (ended_spans b done ++ in_hand (slot_at b w) ≡ spans_of (cell_spans no_spans over)) }
    ensures ended { (j : Workload W.State) (s t : WorkerSnapshot (TableOf W.State)) (done : List Stretch) (b : ℕ)
        → IsTurn j s Ended t → AllHaveSpans s.worker s.lane.taken done → b < s.worker.run.buckets → ended_spans b done ≡ spans_in b (map plain s.lane.taken) }
    ensures fresh { (core : ℕ) (run : BucketHash) → AllHaveSpans {S = W.State} (fresh_worker_state core run) [] [] }
    ensures entries { (j : Workload W.State) (s t : WorkerSnapshot (TableOf W.State)) (turn : WorkerTurn) → Tied j s.worker s.lane s.shelf s.meter → IsTurn j s turn t
        → AreEntries s.worker.core s.worker.run.buckets s.worker.log → AreEntries t.worker.core t.worker.run.buckets t.worker.log }
    ensures stints { (j : Workload W.State) (s t : WorkerSnapshot (TableOf W.State)) (rules : Rules) (xs : List Parcel) (jn : JournalView) (cores b c : ℕ) (done : List Stretch)
        → IsTurn j s Ended t → AllHaveSpans s.worker s.lane.taken done → b < s.worker.run.buckets → map plain s.lane.taken ≡ stream c (dispatches cores xs jn) → IsLawfulSoFar rules xs jn
        → ended_spans b done ≡ spans_at c (stints jn xs b) }
{}

/// A worker at an end of a shelf that serves it alone: the end holds claims of those tables alone
/// that the worker has, each at the place where its custody began, and ended what the log has. So
/// behind the last turn it holds nothing.
pub fn ends_hold_what_workers_have<W: FlowWork>()
    ensures held { (j : Workload W.State) (s t : WorkerSnapshot (TableOf W.State)) (turn : WorkerTurn)
        → Tied j s.worker s.lane s.shelf s.meter → HeldBy s.worker s.shelf → IsTurn j s turn t → HeldBy t.worker t.shelf }
    ensures logged { (j : Workload W.State) (s t : WorkerSnapshot (TableOf W.State)) (turn : WorkerTurn) → Logged s.worker s.shelf → IsTurn j s turn t → Logged t.worker t.shelf }
    ensures nothing { (w : WorkerState (TableOf W.State)) (e : ShelfHistory) → HeldBy w e → NoneLeaves w → NoneHeld w → e.held ≡ [] }
    ensures over { (j : Workload W.State) (s t : WorkerSnapshot (TableOf W.State)) → HeldBy s.worker s.shelf → IsTurn j s Ended t
        → (t.worker.took_end ≡ true) × AllEmpty t.worker.lot × NoneLeaves t.worker × NoneHeld t.worker × (t.shelf.held ≡ []) }
    ensures fresh { (core : ℕ) (run : BucketHash) (e : ShelfHistory) → e.held ≡ [] → e.ended ≡ [] → HeldBy {S = W.State} (fresh_worker_state core run) e × Logged {S = W.State} (fresh_worker_state core run) e }
    ensures same { (j : Workload W.State) (s t : WorkerSnapshot (TableOf W.State)) (turn : WorkerTurn) → IsTurn j s turn t
        → (t.worker.core ≡ s.worker.core) × (t.worker.run ≡ s.worker.run) × (t.shelf.shares ≡ s.shelf.shares) }
{}

/// Where an end tells what its shelf holds, the word of each bucket that it holds is that of the
/// claim: each turn keeps it, of an end of the worker's own and of one that workers share.
pub fn claims_are_words<W: FlowWork>()
    ensures kept { (j : Workload W.State) (s t : WorkerSnapshot (TableOf W.State)) (turn : WorkerTurn) → IsTurn j s turn t → HoldsByWord s.shelf_now s.shelf → HoldsByWord t.shelf_now t.shelf }
    ensures fresh { (now : Option (Stock (TableOf W.State))) (e : ShelfHistory) → e.held ≡ [] → HoldsByWord now e }
{}
