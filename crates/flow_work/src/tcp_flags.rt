ghost use Rattle.std.specs.Prelude.{◌≡◌, ◌++◌, OnOk, OnErr};
ghost use Rattle.rss_base.specs.Piece.{GrowsByFront};
ghost use Rattle.flow_work.specs.TcpFlags.{bit_count, no_flags, flags_after, flags_text, AreFlagsOf};
ghost use Rattle.flow_work.specs.Costs.{one, one_fits};

use crate::FlowWork;
use packet_fields::PacketInfo;
use rss_base::{NoMemory, Piece, Text};

/// The control bit by which a side of a connection says that it sends no more (RFC 9293, section
/// 3.1).
pub const FIN: u8 = 0x01;

/// The control bit that opens a connection (RFC 9293, section 3.1).
pub const SYN: u8 = 0x02;

/// The control bit that breaks a connection off (RFC 9293, section 3.1).
pub const RST: u8 = 0x04;

/// Collects TCP's control bits, and counts the packets that open, end and break off a connection:
/// `flags 12 syn 1 fin 0 rst 0`.
#[derive(Clone, Copy, Debug)]
pub struct TcpFlags;

/// What [`TcpFlags`] knows of a flow.
#[derive(Clone, Copy, Debug, PartialEq, Eq)]
pub struct SeenFlags {
    /// Each control bit that a packet had.
    pub flags: u8,
    /// How many packets had [`SYN`].
    pub syn: u64,
    /// How many packets had [`FIN`].
    pub fin: u64,
    /// How many packets had [`RST`].
    pub rst: u64,
}

// One for a packet that has the bit.
fn bit_count(flags: u8, bit: u8) -> u64
    ensures { result ≡ bit_count bit flags }
{
    if flags & bit != 0 { 1 } else { 0 }
}

impl FlowWork for TcpFlags {
    type State = SeenFlags;

    ghost opening = { no_flags };

    ghost after = { flags_after };

    ghost line_text = { flags_text };

    ghost stands_for = { AreFlagsOf };

    ghost cost_of = { one };

    ghost costs = { one_fits };

    fn begin(&self) -> SeenFlags {
        SeenFlags {
            flags: 0,
            syn: 0,
            fin: 0,
            rst: 0,
        }
    }

    fn step(&self, state: SeenFlags, packet: &PacketInfo) -> SeenFlags {
        let flags = packet.flags;
        SeenFlags {
            flags: state.flags | flags,
            syn: state.syn + bit_count(flags, SYN),
            fin: state.fin + bit_count(flags, FIN),
            rst: state.rst + bit_count(flags, RST),
        }
    }

    fn cost(&self, _packet: &PacketInfo) -> u32 {
        1
    }

    fn line(&self, state: &SeenFlags, text: &mut Text) -> Result<(), NoMemory> {
        text.push_all(&[
            Piece::Bytes(b"flags "),
            Piece::Hex2(state.flags),
            Piece::Bytes(b" syn "),
            Piece::Number(state.syn),
            Piece::Bytes(b" fin "),
            Piece::Number(state.fin),
            Piece::Bytes(b" rst "),
            Piece::Number(state.rst),
        ])
    }
}
