use bucket_table::Custody;
use core_queue::LaneNote;
use handover_words::ShelfNote;
use indirection::Journal;

/// What a run in threads leaves beside its report. The notes come from what the threads shared: a
/// lane and a shelf make theirs as they are closed, and nothing else can.
#[derive(Drop)]
pub struct Trace {
    /// What the dispatcher did.
    pub journal: Journal,
    /// Which core worked which packets of a bucket, by bucket and then by place.
    pub custody: Vec<Custody>,
    /// How many packets each core worked.
    pub worked: Vec<u64>,
    /// What was sent to each core and what it took, in the order of the cores.
    pub notes: Vec<LaneNote>,
    /// The custodies that were ended at the shelf of tables.
    pub shelf: ShelfNote,
}

/// What the program ends with.
#[derive(Drop)]
pub struct Answer {
    /// The status of the process.
    pub status: u8,
    /// The trace of the run, with status 0 of a report or a demo in threads, and else none.
    pub trace: Option<Trace>,
}
