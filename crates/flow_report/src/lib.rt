//! The report of flows that stand in bucket tables, and the text of a journal.
//!
//! The report of a list of packets is a filter and a fold over all of them (`specs/Report.antt`),
//! and knows no bucket. [`report`] writes it from tables that together stand for the packets.
//! [`journal_text`] writes a journal in lines of words (`specs/JournalText.antt`), which tell all
//! of it ([`journal_texts_tell_all`]).
//!
//! Read `specs/Report.antt` and `specs/Tables.antt`, then `fault.rt`, `write.rt`, `sums.rt` and
//! `laws.rt`; for the journal `specs/JournalText.antt` and `specs/JournalNumbers.antt`, then
//! `journal.rt` and `journal_laws.rt`.
#![tactic(auto)]

mod fault;
mod journal;
mod journal_laws;
mod journal_line;
mod laws;
mod line;
mod numbers;
mod order;
pub mod sums;
#[cfg(test)]
mod tests;
mod write;

pub use fault::ReportFault;
pub use journal::journal_text;
pub use journal_laws::journal_texts_tell_all;
pub use laws::{report_keys, standing_tables};
pub use numbers::Totals;
pub use write::report;
