//! Runs of a dispatcher and its workers: on one thread, as sweeps over all parties.
//!
//! Read `specs/Serial.antt`, the run by its definition, and `specs/Ends.antt`, then `run_end.rt`
//! and `serial.rt`. `specs/LocalRun.antt`, `specs/DispatcherOf.antt`, `specs/At.antt` and `laws.rt`
//! tie code to it. `specs/OneTable.antt` and `fold.rt` stand by themselves.
#![tactic(auto)]

mod closing;
mod custody_laws;
mod end_laws;
mod fold;
mod laws;
mod limits;
mod local_run;
mod run_end;
mod serial;
mod start;
mod sweep;
#[cfg(test)]
mod tests;

pub use closing::{custody_of, is_table_short, is_worker_short, worked_by_each};
pub use custody_laws::{logs_are_the_custody, notes_have_the_stints};
pub use end_laws::tables_share_the_packets;
pub use fold::one_thread;
pub use laws::{
    dispatchers_tell_the_run, dispatchers_turns_are_the_runs, no_sweep_is_idle,
    workers_turns_are_the_runs,
};
pub use run_end::{RunEnd, RunFault, refused};
pub use serial::run_serial;
