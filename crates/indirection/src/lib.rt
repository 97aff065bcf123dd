//! The indirection table, and the journal of what was asked of it.
//!
//! A [`Table`] is seen as the list of its owners. A [`Journal`] is seen as its starting table and
//! the list of its entries, and [`owner_at`] is proved equal to the owner that those entries give a
//! bucket at a position. The packets and the journal of a run are told as one list of steps
//! (`specs/Story.antt`), and each step is judged by those before it: the layers above speak of
//! owners, tails, loads and stints in the words that stand here. What a lawful journal says,
//! sentence by sentence, are laws of it ([`lawful_entries`], [`lawful_rounds`], [`lawful_answers`],
//! [`lawful_owners`]).
//!
//! Read `table.rt` with `specs/Tables.antt`; `entry.rt`; in `specs/` Tries, Story, Due and Lawful,
//! then `journal.rt` and `laws.rt`; then `specs/JournalFacts.antt` and `journal_laws.rt`.
//! `specs/Buckets.antt` has the bucket of a hash, and `specs/Stints.antt` which core had which
//! packets.
#![tactic(auto)]

mod entry;
mod journal;
mod journal_laws;
mod laws;
mod limit_laws;
mod limits;
mod loads;
mod move_order;
mod order_entry;
mod outcome;
mod owner;
mod proposal;
mod round_entry;
mod table;
mod table_fault;

pub use entry::Entry;
pub use journal::Journal;
pub use journal_laws::{
    lawful_answers, lawful_entries, lawful_owners, lawful_rounds, stories_keep_their_entries,
};
pub use laws::{last_rounds, lawful_journals, lawful_steps, stories};
pub use limit_laws::limits_are_stated;
pub use limits::{MOST_BUCKETS, MOST_CORES};
pub use loads::Loads;
pub use move_order::MoveOrder;
pub use order_entry::OrderEntry;
pub use outcome::Outcome;
pub use owner::owner_at;
pub use proposal::Proposal;
pub use round_entry::RoundEntry;
pub use table::Table;
pub use table_fault::TableFault;
