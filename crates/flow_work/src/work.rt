ghost use Rattle.std.specs.Prelude.{◌≡◌, ◌<◌, ◌≤◌, ◌+◌, ◌++◌, List, ℕ, OnOk, OnErr};
ghost use Rattle.rss_base.specs.Piece.{GrowsByFront};
ghost use Rattle.packet_fields.specs.declared.packet.PacketInfo.{PacketInfo};

use packet_fields::PacketInfo;
use rss_base::{NoMemory, Text};

/// The most packets of a flow. A [`FlowWork`] steps while there are fewer.
pub const MOST_PACKETS: u32 = u32::MAX;

/// The most that a packet costs. The costs of the most packets that a capture may have come to less
/// than 2^40.
pub const MOST_COST: u32 = 256;

/// A function of the packets of a flow, taken one by one. What it answers depends on its type and
/// the other arguments, and not on the value of `self`.
pub trait FlowWork {
    /// What is known of a flow so far.
    type State: Copy + Send;

    /// The state of a flow without packets.
    ghost opening: { Self.State };

    /// The state after one packet more.
    ghost after: { Self.State → PacketInfo → Self.State };

    /// The line of a state.
    ghost line_text: { Self.State → List ℕ };

    /// Whether a state can stand for that many packets.
    ghost stands_for: { Self.State → ℕ → Type 0 };

    /// What a packet costs.
    ghost cost_of: { PacketInfo → ℕ };

    /// The state of a flow without packets.
    fn begin(&self) -> Self::State
        ensures state { result ≡ opening }
        ensures none { stands_for result 0 };

    /// The state after one packet more.
    fn step(&self, state: Self::State, packet: &PacketInfo) -> Self::State
        requires { (k : ℕ) × (k < MOST_PACKETS) × stands_for state k }
        ensures state { result ≡ after state packet.now }
        ensures more { (k : ℕ) → k < MOST_PACKETS → stands_for state k → stands_for result (k + 1) };

    /// How much work a packet is, relative to other packets: 1 to [`MOST_COST`]. The loads that
    /// rounds of balancing weigh are made of it.
    fn cost(&self, packet: &PacketInfo) -> u32
        ensures cost { result ≡ cost_of packet.now }
        ensures bounds { (1 ≤ result) × (result ≤ MOST_COST) };

    /// Appends the line of a state, without a line end. After [`NoMemory`] a front of it was
    /// appended.
    fn line(&self, state: &Self::State, text: &mut Text) -> Result<(), NoMemory>
        ensures ok { OnOk result (text.new ≡ text.old ++ line_text state.now) }
        ensures err { OnErr result (GrowsByFront text.old text.new (line_text state.now)) };

    /// Each packet costs 1 to 256.
    ghost costs: { (p : PacketInfo) → (1 ≤ cost_of p) × (cost_of p ≤ 256) };
}
