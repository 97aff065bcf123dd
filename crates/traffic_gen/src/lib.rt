//! Captures that are made from two numbers, for tests and measurements.
//!
//! The traffic of a number is defined as one list of bytes (`specs/Traffic.antt`): a capture of
//! Ethernet frames of TCP and UDP over IPv4. A number is drawn for each packet: in the lower half
//! of its range the packet is of one of four large flows. [`make`] writes it, a [`TrafficSource`]
//! gives it, both byte for byte, and [`info_at`] answers the fields of any of its packets without
//! making the bytes. It is a whole capture of its packets ([`good_capture`]).
//!
//! Read `specs/Draw.antt`, `specs/Packet.antt` and `specs/Traffic.antt`, then `writing.rt` and
//! `source.rt`; then `specs/Info.antt` with `info.rt`, and `specs/Capture.antt` with `laws.rt`. The
//! other files make single records.
#![tactic(auto)]

mod ahead;
mod draw;
mod frame;
mod info;
mod laws;
mod layout;
mod limit_laws;
mod record;
mod source;
#[cfg(test)]
mod tests;
mod upcoming;
mod writing;

pub use info::info_at;
pub use laws::good_capture;
pub use layout::MOST_RECORDS;
pub use limit_laws::limits_are_stated;
pub use source::TrafficSource;
pub use writing::make;
