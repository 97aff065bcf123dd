//! A run in threads, from its options to what it came to.
//!
//! [`run_threads`] opens lanes, pool, shelf and meter, has all parties run in shifts until each has
//! ended, closes what they shared, and tells the run. What an Ok says of the run is one record,
//! `IsThreadedRun` (`specs/Threaded.antt`): the journal is lawful, each core was sent its stream by
//! that journal and took all of it, and the custodies on the shelf and in the workers' logs are the
//! stints of that journal. What it says of the tables is `AreTablesOf` (`specs/Ends.antt` of
//! `rsspp_run`). That it returns isn't claimed.
//!
//! Read `specs/Threaded.antt`, then `threaded.rt`. The run goes by `parties.rt` (over `opening.rt`,
//! `lanes.rt` and `rooms.rt`), `closing.rt` and `telling.rt`.
#![tactic(auto)]

mod closing;
mod lanes;
mod opening;
mod parties;
mod rooms;
mod telling;
mod threaded;

pub use threaded::run_threads;
