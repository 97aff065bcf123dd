ghost use Rattle.std.specs.Prelude.{◌≡◌, ◌++◌, OnOk, OnErr, ⊤};
ghost use Rattle.rss_base.specs.Piece.{GrowsByFront};
ghost use Rattle.flow_work.specs.OrderFold.{folded, order_text};
ghost use Rattle.flow_work.specs.Costs.{order_cost, order_cost_fits};

use crate::{FlowWork, MOST_COST};
use packet_fields::PacketInfo;
use rss_base::{NoMemory, Piece, Text};

/// By what the number so far is multiplied, before a packet's length is added to it.
pub const FACTOR: u32 = 31;

// How many bytes on the wire cost 1.
const COST_UNIT: u32 = 64;

/// Makes one number of the packets' lengths on the wire, which depends on their order: `order 59910`.
/// A packet costs 1, and 1 more for each 64 bytes, up to the most.
#[derive(Clone, Copy, Debug)]
pub struct OrderFold;

impl FlowWork for OrderFold {
    type State = u32;

    ghost opening = { 0 };

    ghost after = { folded };

    ghost line_text = { order_text };

    ghost stands_for = { λ _ _. ⊤ };

    ghost cost_of = { order_cost };

    ghost costs = { order_cost_fits };

    fn begin(&self) -> u32 {
        0
    }

    fn step(&self, state: u32, packet: &PacketInfo) -> u32 {
        let length = packet.original;
        let next = u64::from(FACTOR) * u64::from(state) + u64::from(length);
        (next % (1 << 32)) as u32
    }

    fn cost(&self, packet: &PacketInfo) -> u32 {
        let length = packet.original;
        (1 + length / COST_UNIT).min(MOST_COST)
    }

    fn line(&self, state: &u32, text: &mut Text) -> Result<(), NoMemory> {
        text.push_all(&[Piece::Bytes(b"order "), Piece::Number(u64::from(*state))])
    }
}
