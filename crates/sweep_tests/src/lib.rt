//! Tests of a dispatcher and two workers over the ends that threads share, driven on one thread by
//! sweeps over all three. It has no other code.
//!
//! Read `opening.rt`, which makes the ends, `parties.rt` with `worker_party.rt` and
//! `dispatcher_party.rt`, then `sweeps.rt` and `run.rt`. The tests are in `runs.rt`.
#![tactic(auto)]

#[cfg(test)]
mod capture;
#[cfg(test)]
mod dispatcher_party;
#[cfg(test)]
mod opening;
#[cfg(test)]
mod parties;
#[cfg(test)]
mod run;
#[cfg(test)]
mod runs;
#[cfg(test)]
mod sweeps;
#[cfg(test)]
mod worker_party;
