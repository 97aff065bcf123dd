// How what all parties shared is closed, once all have ended.
ghost use Rattle.std.specs.Prelude.{◌≡◌, ◌+◌, ◌<◌, ◌≤◌, [], ◌∷◌, ◌++◌, map, length, vec_capacity, IfSome, IfNone};
ghost use Rattle.std.specs.List.{flat_map};
ghost use Rattle.core_queue.specs.RuledLane.{Noted, HasEnd};
ghost use Rattle.handover_words.specs.declared.history.ShelfHistory.{ShelfHistory};
ghost use Rattle.handover_words.specs.ShelfSteps.{joined};
ghost use Rattle.handover_words.specs.Stands.{IsTableOf};
ghost use Rattle.handover_words.specs.WordShelf.{ClosesShelf};
ghost use Rattle.worker_loop.specs.Workload.{workload};
ghost use Rattle.run_shifts.specs.WorkerParties.{AreWorkerParties, HaveEnded};
ghost use Rattle.threaded_run.specs.PartyLists.{IsLeft, AreLeft, AreOfLanes, sent_by, sent_in, taken_in, worker_in, taken_at, ended_at};

use bucket_table::BucketTable;
use core_queue::{LaneNote, RuledLane, SenderPass, TakerPass};
use flow_work::FlowWork;
use handover_words::{ShelfNote, ShelfSeat, WordShelf};
use packet_fields::RunName;
use run_shifts::{SharedObjects, WorkerParty};
use worker_loop::Worker;

// Closes a lane of which all that was sent was taken.
fn close_lane<N: RunName>(lane: RuledLane<N>, sender: SenderPass, taker: TakerPass) -> LaneNote
    requires sender { sender.home ≡ lane.home }
    requires taker { taker.home ≡ lane.home }
    requires closed { HasEnd taker.history.taken }
    ensures note { (result.sent ≡ sender.history.sent) × (result.taken ≡ sender.history.sent) }
    ensures took { taker.history.taken ≡ sender.history.sent }
{
    lane.close(sender, taker)
}

// Closes the lane of one core, and joins its party's seat to the one that is handed in.
fn close_one<W: FlowWork + Drop, N: RunName + Drop>(
    shelf: &WordShelf<BucketTable<W>, N>,
    lane: RuledLane<N>,
    sender: SenderPass,
    worker_party: WorkerParty<Worker<W>, BucketTable<W>>,
    seat: &mut ShelfSeat<BucketTable<W>>,
    notes: &mut Vec<LaneNote>,
    workers: &mut Vec<Worker<W>>,
)
    requires left { IsLeft shelf.now lane sender worker_party }
    requires seat { seat.old.home ≡ shelf.now.home }
    requires room { (length notes.old.items < vec_capacity notes.old) × (length workers.old.items < vec_capacity workers.old) }
    ensures notes { (n : Noted) × (notes.new.items ≡ notes.old.items ++ n ∷ []) × (n.sent ≡ sender.history.sent) × (n.taken ≡ sender.history.sent) }
    ensures took { worker_party.taker.history.taken ≡ sender.history.sent }
    ensures workers { workers.new.items ≡ workers.old.items ++ worker_party.worker ∷ [] }
    ensures capacity { (vec_capacity notes.new ≡ vec_capacity notes.old) × (vec_capacity workers.new ≡ vec_capacity workers.old) }
    ensures seat { seat.new ≡ record { home = shelf.now.home; history = joined seat.old.history worker_party.seat.history } }
{
    let WorkerParty {
        core: _,
        worker,
        taker,
        seat: other,
        load: _,
        cells: _,
        ended: _,
    } = worker_party;
    shelf.join(seat, other);
    notes.push_reserved(close_lane(lane, sender, taker));
    workers.push_reserved(worker);
}

// Takes the last of each of three lists.
fn last_three<A: Drop, B: Drop, C: Drop>(
    xs: &mut Vec<A>,
    ys: &mut Vec<B>,
    zs: &mut Vec<C>,
) -> Option<(A, B, C)>
    requires { (length ys.old.items ≡ length xs.old.items) × (length zs.old.items ≡ length xs.old.items) }
    ensures some { IfSome result (λ r. (xs.old.items ≡ xs.new.items ++ r.0 ∷ []) × (ys.old.items ≡ ys.new.items ++ r.1 ∷ []) × (zs.old.items ≡ zs.new.items ++ r.2 ∷ [])) }
    ensures none { IfNone result ((ys.old.items ≡ []) × (zs.old.items ≡ [])) }
{
    let x = xs.pop()?;
    let y = ys.pop()?;
    let z = zs.pop()?;
    Some((x, y, z))
}

/// Closes the lane of each core, in the order of cores, and joins the parties' seats to the one that
/// is handed in. Each lane gets its note, and its worker is kept.
pub(crate) fn close_all<W: FlowWork + Drop, N: RunName + Drop>(
    shelf: &WordShelf<BucketTable<W>, N>,
    mut lanes: Vec<RuledLane<N>>,
    mut senders: Vec<SenderPass>,
    mut worker_parties: Vec<WorkerParty<Worker<W>, BucketTable<W>>>,
    seat: &mut ShelfSeat<BucketTable<W>>,
    notes: &mut Vec<LaneNote>,
    workers: &mut Vec<Worker<W>>,
)
    requires counts { (length senders.items ≡ length lanes.items) × (length worker_parties.items ≡ length lanes.items) }
    requires left { AreLeft shelf.now lanes.items senders.items worker_parties.items }
    requires seat { (seat.old.home ≡ shelf.now.home) × (seat.old.history.held ≡ []) }
    requires notes { (notes.old.items ≡ []) × (length lanes.items ≤ vec_capacity notes.old) }
    requires workers { (workers.old.items ≡ []) × (length lanes.items ≤ vec_capacity workers.old) }
    ensures sent { sent_in notes.new.items ≡ sent_by senders.items }
    ensures taken { taken_in notes.new.items ≡ sent_by senders.items }
    ensures took { map taken_at worker_parties.items ≡ sent_by senders.items }
    ensures workers { workers.new.items ≡ map worker_in worker_parties.items }
    ensures capacity { (vec_capacity notes.new ≡ vec_capacity notes.old) × (vec_capacity workers.new ≡ vec_capacity workers.old) }
    ensures seat { (seat.new.home ≡ shelf.now.home) × (seat.new.history.held ≡ []) }
    ensures run { (seat.new.history.key ≡ seat.old.history.key) × (seat.new.history.buckets ≡ seat.old.history.buckets) }
    ensures shares { seat.new.history.shares ≡ seat.old.history.shares + length worker_parties.items }
    ensures ended { seat.new.history.ended ≡ seat.old.history.ended ++ flat_map ended_at worker_parties.items }
{
    let Some((lane, sender, worker_party)) = last_three(
        &mut lanes,
        &mut senders,
        &mut worker_parties,
    ) else {
        return;
    };
    close_all(shelf, lanes, senders, worker_parties, seat, notes, workers);
    close_one(shelf, lane, sender, worker_party, seat, notes, workers);
}

/// What is left of a run's parties and of what they shared.
#[derive(Drop)]
pub(crate) struct Left<W: FlowWork> {
    pub(crate) tables: Vec<BucketTable<W>>,
    pub(crate) workers: Vec<Worker<W>>,
    pub(crate) notes: Vec<LaneNote>,
    pub(crate) shelf: ShelfNote,
}

/// Closes what all shared. It takes no memory: the lists have room.
pub(crate) fn finish<W: FlowWork + Drop, N: RunName + Drop>(
    shared: SharedObjects<W, N>,
    senders: Vec<SenderPass>,
    worker_parties: Vec<WorkerParty<Worker<W>, BucketTable<W>>>,
    mut seat: ShelfSeat<BucketTable<W>>,
    mut notes: Vec<LaneNote>,
    mut workers: Vec<Worker<W>>,
    mut tables: Vec<BucketTable<W>>,
) -> Left<W>
    requires counts { (length senders.items ≡ length shared.lanes) × (length worker_parties.items ≡ length shared.lanes) }
    requires worker_parties { AreWorkerParties (workload W.opening W.after W.cost_of N.packets) shared worker_parties.items }
    requires ended { HaveEnded worker_parties.items }
    requires senders { AreOfLanes shared.lanes senders.items }
    requires seat { (seat.home ≡ shared.shelf.home) × (seat.history.held ≡ []) × (seat.history.ended ≡ []) }
    requires shares { seat.history.shares + length worker_parties.items ≡ shared.shelf.run.ends }
    requires notes { (notes.items ≡ []) × (length shared.lanes ≤ vec_capacity notes) }
    requires workers { (workers.items ≡ []) × (length shared.lanes ≤ vec_capacity workers) }
    requires tables { (tables.items ≡ []) × (seat.history.buckets ≤ vec_capacity tables) }
    ensures sent { sent_in result.notes.items ≡ sent_by senders.items }
    ensures taken { taken_in result.notes.items ≡ sent_by senders.items }
    ensures took { map taken_at worker_parties.items ≡ sent_by senders.items }
    ensures workers { result.workers.items ≡ map worker_in worker_parties.items }
    ensures shelf { result.shelf ≡ flat_map ended_at worker_parties.items }
    ensures tables { (history : ShelfHistory) × (history.key ≡ seat.history.key) × (history.buckets ≡ seat.history.buckets) × (history.ended ≡ result.shelf) × ClosesShelf (IsTableOf W.opening W.after N.packets) history [] result.tables.items }
{
    let SharedObjects {
        lanes,
        shelf,
        pool: _,
        meter: _,
    } = shared;
    close_all(
        &shelf,
        lanes,
        senders,
        worker_parties,
        &mut seat,
        &mut notes,
        &mut workers,
    );
    let note = shelf.close(seat, &mut tables);
    Left {
        tables,
        workers,
        notes,
        shelf: note,
    }
}
