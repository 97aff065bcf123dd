// What is proved of every list of enabled events from the first state of any machine, and of every
// state that meets the invariant.
ghost use Rattle.std.specs.Prelude.{◌≡◌, ◌≢◌, ◌↔◌, ◌<◌, ◌+◌, ◌*◌, ℕ, List, length, sum_by, Some, None, true};
ghost use Rattle.handover_core.specs.declared.event.Event.{Event};
ghost use Rattle.handover_core.specs.State.{MachineView};
ghost use Rattle.handover_core.specs.Machine.{enabled, step, next_event, steps_left};
ghost use Rattle.handover_core.specs.Runs.{Runs, IsStart, CanFinish};
ghost use Rattle.handover_core.specs.Bucket.{places_from};
ghost use Rattle.handover_core.specs.Sound.{IsSound};
ghost use Rattle.handover_core.specs.Neighbours.{AreNeighbours, AreTaken};
ghost use Rattle.handover_core.specs.Promises.{IsHeldOnce, AreStreams, IsInPlace, worked_in, worked, IsFinished, IsOfWorker, counts, IsDone};

/// The invariant of all that follows: it holds at the start, and each enabled event keeps it from
/// any state that meets it.
pub fn every_state_is_sound()
    ensures start { (m : MachineView) → IsStart m → IsSound m }
    ensures kept { (m : MachineView) (event : Event) → IsSound m → enabled m event ≡ true → IsSound (step m event) }
    ensures runs { (start last : MachineView) (events : List Event) → IsStart start → Runs start events last → IsSound last }
{}

/// Each bucket's table is in one hand after each run: on the shelf, or with one core.
pub fn each_table_is_in_one_hand()
    ensures runs { (start last : MachineView) (events : List Event) → IsStart start → Runs start events last → IsHeldOnce last }
    ensures sound { (m : MachineView) → IsSound m → IsHeldOnce m }
{}

/// Each core's items go through its queue in the order in which they were sent, and they are legal.
pub fn streams_keep_their_order()
    ensures runs { (start last : MachineView) (events : List Event) → IsStart start → Runs start events last → AreStreams last }
    ensures sound { (m : MachineView) → IsSound m → AreStreams m }
{}

/// What is taken meets its bucket as it should, and a run works the places of each bucket one after
/// the other from 0 on, so none is worked twice.
pub fn packets_are_in_place()
    ensures meets { (start last : MachineView) (events : List Event) (event : Event) → IsStart start → Runs start events last → enabled last event ≡ true → IsInPlace last event }
    ensures sound { (m : MachineView) (event : Event) → IsSound m → enabled m event ≡ true → IsInPlace m event }
    ensures once { (start last : MachineView) (events : List Event) (b : ℕ) → IsStart start → Runs start events last → b < length start.buckets → worked_in b start events ≡ places_from 0 (worked last b) }
{}

/// The starts of a bucket rise; until its owner took End its word speaks of its newest stint or of
/// the one before; a seen word that says that the owner has the table is the word until an End is
/// sent; and what a core took last goes with what it does: one that does nothing with the bucket
/// took nothing of it, or its mark last, or took End.
pub fn neighbouring_stints()
    ensures runs { (start last : MachineView) (events : List Event) → IsStart start → Runs start events last → AreNeighbours last }
    ensures sound { (m : MachineView) → IsSound m → AreTaken m → AreNeighbours m }
    ensures kept { (m : MachineView) (event : Event) → IsSound m → enabled m event ≡ true → AreTaken m → AreTaken (step m event) }
{}

/// No state is stuck: there is a next event exactly where the machine isn't finished, and where not
/// all cells are free a worker can act. So each run can be finished.
pub fn no_state_is_stuck()
    ensures finished { (start last : MachineView) (events : List Event) → IsStart start → Runs start events last → (next_event last ≡ None) ↔ IsFinished last }
    ensures next { (m : MachineView) (event : Event) → next_event m ≡ Some event → (enabled m event ≡ true) × (counts event ≡ 1) }
    ensures workers { (start last : MachineView) (events : List Event) → IsStart start → Runs start events last → last.free ≢ last.pool → (event : Event) × IsOfWorker event × (enabled last event ≡ true) }
    ensures ends { (start last : MachineView) (events : List Event) → IsStart start → Runs start events last → CanFinish last }
    ensures sound { (m : MachineView) → IsSound m
        → ((next_event m ≡ None) ↔ IsFinished m) × (m.free ≢ m.pool → (event : Event) × IsOfWorker event × (enabled m event ≡ true)) × CanFinish m }
{}

/// Each event but Look and Place lowers the number of steps that are left by one.
pub fn steps_are_bounded()
    ensures first { (m : MachineView) → IsStart m → steps_left m ≡ 2 * (length m.packets + m.first_moves + length m.cores) + 2 * (m.first_moves + length m.buckets) }
    ensures falls { (start last : MachineView) (events : List Event) (event : Event) → IsStart start → Runs start events last → enabled last event ≡ true → steps_left (step last event) + counts event ≡ steps_left last }
    ensures sound { (m : MachineView) (event : Event) → IsSound m → enabled m event ≡ true → steps_left (step m event) + counts event ≡ steps_left m }
    ensures runs { (start last : MachineView) (events : List Event) → IsStart start → Runs start events last → steps_left last + sum_by counts events ≡ steps_left start }
{}

/// Where a run is finished all packets are worked, each table is on the shelf with all of them, all
/// cells are free, and each core has taken all that was sent to it.
pub fn a_finished_run_worked_all()
    ensures runs { (start last : MachineView) (events : List Event) → IsStart start → Runs start events last → IsFinished last → IsDone last }
    ensures sound { (m : MachineView) → IsSound m → IsFinished m → IsDone m }
{}
