//! Reading, sending and moving: the dispatcher of a run, and the options of a run.
//!
//! [`Dispatcher`] reads the packets of a capture, sends each to the core that owns its bucket,
//! makes rounds of balancing, and moves buckets. It does one thing a turn, over whichever ends.
//! Contracts see it as `DispatcherState` (`specs/DispatcherState.antt`). `IsTurn`
//! (`specs/Rules.antt`) says which rule a turn did, by what its ends answered; `Tied`
//! (`specs/Tied.antt`) says what holds between turns: each lane was sent the stream of its core,
//! and the journal is lawful so far. The packets that were sent are held by nobody: clauses speak
//! of each list of packets with which all goes. The laws say what a whole run leaves, how its story
//! grows, and that others may use the ends meanwhile.
//!
//! The packets of a capture under a limit are `ArePackets` (`specs/Packets.antt`), and
//! [`next_packet`] reads them one by one.
//!
//! Contracts see [`Options`] as the key, the numbers, the starting table as its view and the
//! orders as a list. `IsAccepted` (`specs/Accepted.antt`) says that every field is in its range:
//! the reading of the command words gives no other, and each call that runs with options can
//! require it. The law `defaults_are_accepted` says that the defaults are in those ranges.
//!
//! Read `options.rt` with `specs/Accepted.antt`; `specs/Packets.antt` and `packets.rt`; then, in
//! `specs/`, DispatcherState, Past, Tied, Does and Rules, with `dispatcher_turn.rt` and
//! `dispatcher.rt`; then Steps, Finished and `laws.rt`. The other files are parts of a turn.
#![tactic(auto)]

mod act;
mod asked;
mod attempt;
mod dispatcher;
mod dispatcher_end;
mod dispatcher_turn;
mod finish;
mod intake;
mod lanes;
mod laws;
mod limit_laws;
mod limits;
mod mark;
mod options;
mod orders;
mod packet;
mod packets;
mod policy;
mod round;
mod rounds;
mod routing;
mod sending;
mod state;
mod turn;

pub use dispatcher::Dispatcher;
pub use dispatcher_end::DispatcherEnd;
pub use dispatcher_turn::DispatcherTurn;
pub use intake::read_next;
pub use laws::{
    captures_have_one_list_of_packets, defaults_are_accepted, dispatchers_bear_the_workers,
    finished_dispatchers, sent_packets_are_the_rules, stories_go_on_by_the_rules,
};
pub use limit_laws::{defaults_are_stated, limits_agree, limits_are_stated};
pub use limits::{
    DEFAULT_BUCKETS, DEFAULT_CORES, DEFAULT_LIMIT, DEFAULT_PACKETS, DEFAULT_POOL, DEFAULT_ROUND,
    LEAST_PACKETS, LEAST_POOL, LEAST_ROUND, MOST_LIMIT, MOST_ORDERS, MOST_POOL, MOST_ROUND,
};
pub use options::Options;
pub use packets::next_packet;
pub use policy::policy_of;
