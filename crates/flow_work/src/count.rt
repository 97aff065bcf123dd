ghost use Rattle.std.specs.Prelude.{◌≡◌, ◌++◌, OnOk, OnErr};
ghost use Rattle.rss_base.specs.Piece.{GrowsByFront};
ghost use Rattle.flow_work.specs.Count.{no_packets, counted, count_text, IsCountOf};
ghost use Rattle.flow_work.specs.Costs.{one, one_fits};

use crate::FlowWork;
use packet_fields::PacketInfo;
use rss_base::{NoMemory, Piece, Text};

/// Counts the packets of a flow, and adds up their lengths on the wire: `packets 3 bytes 180`.
#[derive(Clone, Copy, Debug)]
pub struct Count;

/// What [`Count`] knows of a flow.
#[derive(Clone, Copy, Debug, PartialEq, Eq)]
pub struct Counted {
    /// How many packets there were.
    pub packets: u64,
    /// Their lengths on the wire added up.
    pub bytes: u64,
}

impl FlowWork for Count {
    type State = Counted;

    ghost opening = { no_packets };

    ghost after = { counted };

    ghost line_text = { count_text };

    ghost stands_for = { IsCountOf };

    ghost cost_of = { one };

    ghost costs = { one_fits };

    fn begin(&self) -> Counted {
        Counted {
            packets: 0,
            bytes: 0,
        }
    }

    fn step(&self, state: Counted, packet: &PacketInfo) -> Counted {
        let length = packet.original;
        Counted {
            packets: state.packets + 1,
            bytes: state.bytes + u64::from(length),
        }
    }

    fn cost(&self, _packet: &PacketInfo) -> u32 {
        1
    }

    fn line(&self, state: &Counted, text: &mut Text) -> Result<(), NoMemory> {
        text.push_all(&[
            Piece::Bytes(b"packets "),
            Piece::Number(state.packets),
            Piece::Bytes(b" bytes "),
            Piece::Number(state.bytes),
        ])
    }
}
