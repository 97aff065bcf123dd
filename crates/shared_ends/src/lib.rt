//! Two threads at ends that they share.
//!
//! Nothing here is part of a run. It shows that the ends which threads share may be lent to threads
//! and that their passes and seats may move to them, for every work and every name of a run, and
//! what closing gives once the threads are joined: [`send_and_work`] has one thread send a packet
//! and another work it, over a lane, a shelf, a pool and a meter at once, and [`work_in_turn`] has
//! two threads hand a bucket's table to each other for each packet.
//!
//! Read `side.rt` and `specs/Sides.antt`, then `specs/Packets.antt`, `parties.rt` and `in_turn.rt`.
//! `sending.rt`, `working.rt` and `work_one.rt` are what a party does in its thread.
#![tactic(auto)]

mod in_turn;
mod parties;
mod sending;
mod side;
#[cfg(test)]
mod tests;
mod work_one;
mod working;

pub use in_turn::work_in_turn;
pub use parties::{Left, send_and_work};
pub use side::Side;
