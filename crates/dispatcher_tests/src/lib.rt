//! Tests of the dispatcher over ends on one thread: each answer of a turn, and the journals that
//! turns leave. It has no other code.
//!
//! Read `rig.rt`, which holds a dispatcher with its ends, and `step.rt`, what is done to it; then
//! the tests in `ends.rt`, `rooms.rt`, `journals.rt` and `rounds.rt`.
#![tactic(auto)]

#[cfg(test)]
mod capture;
#[cfg(test)]
mod ends;
#[cfg(test)]
mod hand;
#[cfg(test)]
mod journals;
#[cfg(test)]
mod rig;
#[cfg(test)]
mod rooms;
#[cfg(test)]
mod rounds;
#[cfg(test)]
mod step;
#[cfg(test)]
mod turning;
