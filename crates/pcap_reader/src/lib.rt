//! Reads captures of the classic pcap format, version 2.4, record by record.
//!
//! The format is a relation on whole lists of bytes (`specs/Capture.antt`), and each list has
//! exactly one list of whole records and one end or first break behind them ([`one_reading`]).
//! A [`Reader`] gives these records and that end, however its source cuts the bytes, and before a
//! failed read the first of them ([`records_in_order`]). It reads its source in large pieces into
//! one buffer, copies no captured bytes out of it, takes no memory after its start, and reads no
//! further than the longest record behind what it gave.
//!
//! Read `specs/Capture.antt`, then `fault.rt`, `form.rt`, `record.rt` and `laws.rt`;
//! `specs/Stream.antt` and `specs/Reading.antt`, then `reader.rt` and `reading_laws.rt`. The other
//! files take numbers and headers out of the buffer in `window.rt`.
#![tactic(auto)]

mod fault;
mod form;
mod format;
mod head;
mod header;
mod laws;
mod limit_laws;
mod numbers;
mod reader;
mod reading_laws;
mod record;
#[cfg(test)]
mod tests;
mod window;

pub use fault::{Break, ReadError};
pub use form::{Form, Fraction, Order};
pub use format::{CAPTURE_HEADER, LONGEST, RECORD_HEADER};
pub use laws::{one_reading, one_stream_end};
pub use limit_laws::limits_are_stated;
pub use reader::{MOST_RECORDS, Progress, Reader};
pub use reading_laws::records_in_order;
pub use record::Record;
