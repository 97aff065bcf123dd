//! The worker of a core: it takes what the dispatcher sends, and works each packet in its bucket's
//! table, at its place.
//!
//! A bucket whose table another core still has waits: its packets are parked until the table can be
//! claimed. Behind a stint's mark, and once End was taken, the table goes back to the shelf. A
//! [`Worker::turn`] does the first rule that is due by what its ends answer. Its contract tells
//! each rule (`specs/Rules.antt`), over the traits of the ends, so that it holds on one thread and
//! of ends that threads share alike; and it keeps the worker tied to its ends (`specs/Tied.antt`),
//! from which it follows that each packet finds its table with all before it done. It counts the
//! packets that it has worked, and adds up what they cost under its work: the cost is what it notes
//! on its meter, and the count is what its gate is told.
//!
//! Read, in `specs/`, Workload, WorkerState, Tied, WorkerSnapshot, Does and Rules, then
//! `worker_turn.rt` and `worker.rt`; then `laws.rt` and `custody_laws.rt`, which say what follows.
//! The other files are `turn.rt` and the rules that it calls.
#![tactic(auto)]

mod act;
mod claim;
mod context;
mod custody_laws;
mod give;
mod laws;
mod passed;
mod release;
mod slot;
mod state;
mod take;
#[cfg(test)]
mod tests;
mod turn;
mod worker;
mod worker_turn;

pub use custody_laws::{claims_are_words, custodies_are_stretches, ends_hold_what_workers_have};
pub use laws::{
    tables_have_their_keys, turns_are_events, workers_bear_the_dispatcher, workers_keep_order,
    workers_leave_others, workers_note_all, workers_share_a_shelf,
};
pub use slot::Slot;
pub use worker::Worker;
pub use worker_turn::WorkerTurn;
