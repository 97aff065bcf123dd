//! The handover machine: how the flow tables of buckets change hands between running cores, told as
//! one state and its atomic steps.
//!
//! A dispatcher sends packets to the cores that own their buckets, over one receive queue a core. A
//! bucket's table lies on a shelf or is with one core, and its passage word says which. To move a
//! bucket, the dispatcher sends a mark to the core that has it, and the packets behind it to the
//! core that gets it; these wait there until the table is back on the shelf at the mark's place.
//!
//! [`Machine`] is that state, and `step` its next state. What is promised holds after every list of
//! enabled events from the first state of any machine, whatever their order: each table is in one
//! hand ([`each_table_is_in_one_hand`]), each core takes what was sent to it in order
//! ([`streams_keep_their_order`]), each packet is worked once and in its place
//! ([`packets_are_in_place`]), no state is stuck ([`no_state_is_stuck`]), the steps are bounded
//! ([`steps_are_bounded`]), and a finished machine has worked all ([`a_finished_run_worked_all`]).
//! These are parts of one invariant ([`every_state_is_sound`], `specs/Sound.antt`).
//!
//! Read `item.rt` and `event.rt`; `specs/Legal.antt`, `specs/Dispatch.antt`, `specs/State.antt` and
//! `specs/Machine.antt`; then `specs/Promises.antt`, `specs/Runs.antt` and `promises.rt`.
//! `dispatch_laws.rt` says what is sent, and `machine.rt` is the state in memory.
#![tactic(auto)]

mod bucket_state;
mod dispatch_laws;
mod duty;
mod event;
mod item;
mod laws;
mod limit_laws;
mod limits;
mod machine;
mod post;
mod promises;
mod worker_core;

pub use bucket_state::BucketState;
pub use dispatch_laws::{
    events_send, runs_send_their_steps, streams_are_legal, streams_have_the_stints,
};
pub(crate) use duty::Duty;
pub use event::Event;
pub use item::{Item, Kind};
pub use laws::legal_lists;
pub use limit_laws::limits_are_stated;
pub use limits::{FEWEST_CELLS, MOST_CELLS, MOST_PACKETS};
pub use machine::Machine;
pub use post::Post;
pub use promises::{
    a_finished_run_worked_all, each_table_is_in_one_hand, every_state_is_sound,
    neighbouring_stints, no_state_is_stuck, packets_are_in_place, steps_are_bounded,
    streams_keep_their_order,
};
pub(crate) use worker_core::WorkerCore;
