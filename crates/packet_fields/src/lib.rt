//! The fields of a frame that tell its flow, and the text of a flow's key.
//!
//! [`fields`] is proved equal to a definition by cases on byte positions (`specs/Frame.antt`), and
//! [`key_text`] to the key's text (`specs/KeyText.antt`). A [`RunName`] is a type by which
//! contracts above name the packets of a whole run.
//!
//! Read `packet.rt` and `key.rt`; `specs/Frame.antt`, over `specs/Ipv4.antt` and `specs/Ipv6.antt`;
//! then `frame.rt`. `specs/KeyText.antt` with `texts.rt`, `specs/Key.antt` with `laws.rt`, and
//! `run_name.rt` stand by themselves.
#![tactic(auto)]

mod frame;
mod ipv4;
mod ipv6;
mod ipv6_text;
mod key;
mod laws;
mod packet;
mod run_name;
#[cfg(test)]
mod tests;
mod texts;
mod wire;

pub use frame::fields;
pub use key::{Class, FlowKey};
pub use laws::key_order;
pub use packet::PacketInfo;
pub use run_name::{NoName, RunName};
pub use texts::key_text;
pub use wire::{PROTOCOL_TCP, PROTOCOL_UDP};
