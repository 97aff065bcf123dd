ghost use Rattle.std.specs.Prelude.{◌≡◌, ◌++◌, OnOk, OnErr, ⊤};
ghost use Rattle.rss_base.specs.Piece.{GrowsByFront};
ghost use Rattle.flow_work.specs.Gaps.{gap_since, no_gap, gap_after, gap_text};
ghost use Rattle.flow_work.specs.Costs.{one, one_fits};

use crate::FlowWork;
use packet_fields::PacketInfo;
use rss_base::{NoMemory, Piece, Text};

/// Finds the longest time between neighbouring packets of a flow, in nanoseconds: `gap 245`. Where
/// time falls from a packet to the next, that pair counts 0.
#[derive(Clone, Copy, Debug)]
pub struct Gaps;

/// What [`Gaps`] knows of a flow.
#[derive(Clone, Copy, Debug, PartialEq, Eq)]
pub struct SeenGaps {
    /// The longest time between neighbouring packets so far, in nanoseconds.
    pub greatest: u64,
    /// The time of the packet just before, in nanoseconds since the start of 1970.
    pub before: Option<u64>,
}

// The time since the packet just before.
fn gap_since(before: Option<u64>, now: u64) -> u64
    ensures { result ≡ gap_since before now }
{
    match before {
        None => 0,
        Some(before) => now.saturating_sub(before),
    }
}

impl FlowWork for Gaps {
    type State = SeenGaps;

    ghost opening = { no_gap };

    ghost after = { gap_after };

    ghost line_text = { gap_text };

    ghost stands_for = { λ _ _. ⊤ };

    ghost cost_of = { one };

    ghost costs = { one_fits };

    fn begin(&self) -> SeenGaps {
        SeenGaps {
            greatest: 0,
            before: None,
        }
    }

    fn step(&self, state: SeenGaps, packet: &PacketInfo) -> SeenGaps {
        let now = packet.nanos;
        SeenGaps {
            greatest: state.greatest.max(gap_since(state.before, now)),
            before: Some(now),
        }
    }

    fn cost(&self, _packet: &PacketInfo) -> u32 {
        1
    }

    fn line(&self, state: &SeenGaps, text: &mut Text) -> Result<(), NoMemory> {
        text.push_all(&[Piece::Bytes(b"gap "), Piece::Number(state.greatest)])
    }
}
