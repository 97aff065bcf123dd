//! The parties of a run in threads, in shifts: the dispatcher on the caller's thread, and the
//! worker of each core in a thread of its own.
//!
//! A [`SharedObjects`] is what all parties share. A [`WorkerParty`] is what a shift of a core is
//! given and gives back, and a [`DispatcherParty`] is the dispatcher with its reader and its ends.
//! [`run_shifts`] repeats shifts of all parties until each of them has ended. Its contract says, of
//! each worker by itself, how the worker stands to its passes and seats (`specs/Work.antt`,
//! `specs/WorkerParties.antt`), and of the dispatcher, that its turns led from the first snapshot
//! to the last (`specs/DispatcherTurns.antt`). That it returns isn't claimed.
//!
//! Read `shared_objects.rt`, `worker_party.rt` and `dispatcher_party.rt` with `specs/Parties.antt`;
//! `specs/Work.antt`, `specs/WorkerParties.antt` and `specs/DispatcherTurns.antt`, then
//! `running.rt`. Its calls go down by `round.rt`, `all_shifts.rt`, `one_shift.rt` and `turning.rt`.
#![tactic(auto)]

mod all_shifts;
mod dispatcher_party;
mod jobs;
mod one_shift;
mod round;
mod running;
mod shared_objects;
mod turning;
mod worker_party;

pub use dispatcher_party::DispatcherParty;
pub use jobs::beside;
pub use running::run_shifts;
pub use shared_objects::SharedObjects;
pub use turning::PATIENCE;
pub use worker_party::WorkerParty;
