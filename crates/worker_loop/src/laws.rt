// Laws of workers and their turns.
ghost use Rattle.std.specs.Prelude.{◌≡◌, ◌≢◌, ◌⊎◌, ◌<◌, ◌↔◌, ◌++◌, ℕ, List, [], length, map, replicate, Option, Some, true, false, All};
ghost use Rattle.packet_fields.specs.declared.key.FlowKey.{FlowKey};
ghost use Rattle.std.specs.List.{range_with_len};
ghost use Rattle.toeplitz.specs.declared.bucket_hash.BucketHash.{BucketHash};
ghost use Rattle.toeplitz.specs.Bucket.{bucket_hash};
ghost use Rattle.toeplitz.specs.declared.key.Key.{Key};
ghost use Rattle.bucket_table.specs.Table.{TableOf, empty_table};
ghost use Rattle.handover_core.specs.declared.event.Event.{Event};
ghost use Rattle.handover_core.specs.State.{MachineView, core_at, first_state};
ghost use Rattle.handover_core.specs.Machine.{step, posts_by};
ghost use Rattle.handover_core.specs.Dispatch.{stream};
ghost use Rattle.handover_core.specs.Promises.{IsHeldOnce, IsOfWorker};
ghost use Rattle.core_queue.specs.declared.item.Seen.{Seen};
ghost use Rattle.core_queue.specs.Cells.{plain, LegalCells};
ghost use Rattle.core_queue.specs.declared.history.LaneHistory.{LaneHistory};
ghost use Rattle.core_queue.specs.LaneHistory.{lane};
ghost use Rattle.core_queue.specs.NewHistory.{new_history};
ghost use Rattle.parked_queue.specs.Parked.{cells_at, AllEmpty};
ghost use Rattle.handover_words.specs.declared.history.ShelfHistory.{ShelfHistory};
ghost use Rattle.handover_words.specs.Stock.{stock};
ghost use Rattle.load_meter.specs.declared.history.LoadHistory.{LoadHistory};
ghost use Rattle.load_meter.specs.LoadHistory.{noted_at};
ghost use Rattle.worker_loop.specs.declared.slot.Slot.TheVariants.{Leaving};
ghost use Rattle.worker_loop.specs.declared.worker_turn.WorkerTurn.{WorkerTurn};
ghost use Rattle.worker_loop.specs.declared.worker_turn.WorkerTurn.TheVariants.{Ended};
ghost use Rattle.worker_loop.specs.Workload.{Workload, Stands};
ghost use Rattle.worker_loop.specs.Keys.{HasBucket};
ghost use Rattle.worker_loop.specs.WorkerState.{WorkerState};
ghost use Rattle.worker_loop.specs.Fresh.{fresh_worker_state};
ghost use Rattle.worker_loop.specs.Counts.{more, packets_taken, weight_taken, HaveCosts};
ghost use Rattle.worker_loop.specs.Tied.{Tied, slot_at};
ghost use Rattle.worker_loop.specs.WorkerSnapshot.{WorkerSnapshot, worker_snapshot};
ghost use Rattle.worker_loop.specs.Rules.{IsTurn};
ghost use Rattle.worker_loop.specs.Promises.{IsBehindMark, IsOver};
ghost use Rattle.worker_loop.specs.Schedule.{after, worked_of, worked_cost};
ghost use Rattle.worker_loop.specs.Shows.{Shows, AreInPlace, IsEvent, event_of};
ghost use Rattle.worker_loop.specs.Turned.{SameRun, SameTaken, SameClaims, SameNoted, KeepsClaims, Tells};

use flow_work::FlowWork;

/// What a worker that is tied to its ends promises. A table leaves, and so is released, only behind
/// the mark of its stint, with as many packets done as the mark says, or once End was taken. A turn
/// answers Ended exactly where End was taken and nothing waits, is held or leaves. Where nothing is
/// parked, as many packets were worked as were taken, at the cost that they have together. Where End
/// was taken, all that was sent was taken.
pub fn workers_keep_order<W: FlowWork>()
    ensures released { (j : Workload W.State) (w : WorkerState (TableOf W.State)) (lane : LaneHistory) (shelf : ShelfHistory) (meter : LoadHistory) (b : ℕ) (t : TableOf W.State)
        → Tied j w lane shelf meter → b < w.run.buckets → slot_at b w ≡ Leaving t → (w.took_end ≡ true) ⊎ IsBehindMark b t.done (cells_at b w.lot) lane.taken }
    ensures ended { (j : Workload W.State) (s t : WorkerSnapshot (TableOf W.State)) (turn : WorkerTurn) → IsTurn j s turn t → (turn ≡ Ended) ↔ IsOver s.worker }
    ensures worked { (j : Workload W.State) (w : WorkerState (TableOf W.State)) (lane : LaneHistory) (shelf : ShelfHistory) (meter : LoadHistory)
        → Tied j w lane shelf meter → AllEmpty w.lot → w.worked ≡ more 0 (packets_taken lane.taken) }
    ensures cost { (j : Workload W.State) (w : WorkerState (TableOf W.State)) (lane : LaneHistory) (shelf : ShelfHistory) (meter : LoadHistory)
        → Tied j w lane shelf meter → AllEmpty w.lot → w.cost ≡ more 0 (weight_taken j.cost lane.taken) }
    ensures empty { (j : Workload W.State) (w : WorkerState (TableOf W.State)) (lane : LaneHistory) (shelf : ShelfHistory) (meter : LoadHistory)
        → Tied j w lane shelf meter → w.lot.waiting ≡ [] → AllEmpty w.lot }
    ensures whole { (j : Workload W.State) (w : WorkerState (TableOf W.State)) (lane : LaneHistory) (shelf : ShelfHistory) (meter : LoadHistory) (rest : List Seen)
        → Tied j w lane shelf meter → w.took_end ≡ true → LegalCells j.packets w.run.key w.run.buckets (lane.taken ++ rest) → rest ≡ [] }
{}

/// Unless it is short, a table has keys of its bucket alone: in a worker's hand, and on the shelf.
pub fn tables_have_their_keys<W: FlowWork>()
    ensures { (j : Workload W.State) (r : BucketHash) (b : ℕ) (t : TableOf W.State) → Stands j r b t → t.short ≡ false → All (λ (e : FlowKey × W.State). HasBucket r b e.0) t.flows }
{}

/// Over ends that tell what they hold, a turn is the event that is due for its core in the handover
/// machine, and the worker and its ends are the machine's next state then.
pub fn turns_are_events<W: FlowWork>()
    ensures { (j : Workload W.State) (m : MachineView) (c : ℕ) (s t : WorkerSnapshot (TableOf W.State)) (turn : WorkerTurn)
        → Tied j s.worker s.lane s.shelf s.meter → Shows m c s → AreInPlace m → IsTurn j s turn t → IsEvent m c s turn t }
{}

/// What a run of several workers stands on. Each new worker over new ends shows its core of the
/// handover machine's first state. A turn of one worker leaves the others shown, over the shelf as
/// it is then. A worker stays tied to a shelf of the same run at which, for each bucket of which it
/// has the table, the claim is the same.
pub fn workers_share_a_shelf<W: FlowWork>()
    ensures first { (owners packets : List ℕ) (cores pool moves c : ℕ) (key : Key) (room : ℕ) (shelf : ShelfHistory) (meter : LoadHistory) (meter_now : Option (List ℕ)) → c < cores
        → Shows {S = W.State} (first_state owners cores packets pool moves) c
        (worker_snapshot (fresh_worker_state c (bucket_hash key (length owners))) (new_history key (length owners)) (Some (lane [] room))
        shelf (Some (stock (replicate (length owners) 1) (map (λ b. Some (empty_table b)) (range_with_len 0 (length owners))))) meter meter_now) }
    ensures shown { (j : Workload W.State) (m : MachineView) (c d : ℕ) (s t u : WorkerSnapshot (TableOf W.State)) (turn : WorkerTurn)
        → Tied j s.worker s.lane s.shelf s.meter → Shows m c s → AreInPlace m → IsTurn j s turn t → Shows m d u → d ≢ c
        → Shows (after m (event_of c turn)) d (record u { shelf = t.shelf; shelf_now = t.shelf_now }) }
    ensures tied { (j : Workload W.State) (w : WorkerState (TableOf W.State)) (lane : LaneHistory) (shelf shelf' : ShelfHistory) (meter : LoadHistory)
        → Tied j w lane shelf meter → SameRun shelf shelf' → KeepsClaims w shelf shelf' → Tied j w lane shelf' meter }
{}

/// What one worker's turn leaves of the others on one thread, where all are cores of one state in
/// which each table is in one hand: they stay tied to shelf and meter as these are then, and the
/// meter tells their numbers.
pub fn workers_leave_others<W: FlowWork>()
    ensures tied { (j : Workload W.State) (m : MachineView) (c d : ℕ) (s t u : WorkerSnapshot (TableOf W.State)) (turn : WorkerTurn)
        → Tied j s.worker s.lane s.shelf s.meter → Shows m c s → IsTurn j s turn t → Shows m d u → d ≢ c → IsHeldOnce m
        → Tied j u.worker u.lane s.shelf s.meter → Tied j u.worker u.lane t.shelf t.meter }
    ensures told { (j : Workload W.State) (s t : WorkerSnapshot (TableOf W.State)) (turn : WorkerTurn) (d n : ℕ)
        → IsTurn j s turn t → d ≢ s.worker.core → Tells s.meter_now d n → Tells t.meter_now d n }
{}

/// The cost of the packets that a worker has worked is what it noted last, and what the meter tells of
/// its core. Its core of the handover machine has worked as many packets, at this cost,
/// where `costs` says what each packet that was taken costs by its bucket and place.
pub fn workers_note_all<W: FlowWork>()
    ensures noted { (j : Workload W.State) (s t : WorkerSnapshot (TableOf W.State)) (turn : WorkerTurn)
        → Tied j s.worker s.lane s.shelf s.meter → IsTurn j s turn t → noted_at s.worker.core s.meter ≡ s.worker.cost → noted_at t.worker.core t.meter ≡ t.worker.cost }
    ensures told { (j : Workload W.State) (s t : WorkerSnapshot (TableOf W.State)) (turn : WorkerTurn)
        → IsTurn j s turn t → Tells s.meter_now s.worker.core s.worker.cost → Tells t.meter_now t.worker.core t.worker.cost }
    ensures worked { (j : Workload W.State) (m : MachineView) (c : ℕ) (s : WorkerSnapshot (TableOf W.State))
        → Tied j s.worker s.lane s.shelf s.meter → Shows m c s → s.worker.worked ≡ more 0 (worked_of (core_at m c)) }
    ensures cost { (j : Workload W.State) (m : MachineView) (c : ℕ) (s : WorkerSnapshot (TableOf W.State)) (costs : ℕ → ℕ → ℕ)
        → Tied j s.worker s.lane s.shelf s.meter → Shows m c s → HaveCosts costs j.cost s.lane.taken → s.worker.cost ≡ more 0 (worked_cost costs (core_at m c)) }
{}

/// What the dispatcher does leaves each worker tied and shown: it sends on the worker's lane, looks
/// at words, and reads the meter.
pub fn workers_bear_the_dispatcher<W: FlowWork>()
    ensures tied { (j : Workload W.State) (w : WorkerState (TableOf W.State)) (lane lane' : LaneHistory) (shelf shelf' : ShelfHistory) (meter meter' : LoadHistory)
        → Tied j w lane shelf meter → SameTaken lane lane' → SameClaims shelf shelf' → SameNoted w.core meter meter' → Tied j w lane' shelf' meter' }
    ensures shown { (m : MachineView) (d : ℕ) (u : WorkerSnapshot (TableOf W.State)) (history : LaneHistory) (xs : List Seen) (event : Event) (h : Shows m d u)
        → ¬ (IsOfWorker event) → map plain xs ≡ stream d (posts_by m event) → history.taken ≡ u.lane.taken
        → Shows (step m event) d (record u { lane = history; lane_now = Some (lane (h.lane.items ++ xs) h.lane.room) }) }
{}
