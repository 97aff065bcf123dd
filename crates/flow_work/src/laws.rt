// What the works' folds come to, in words on the whole list of packets.
ghost use Rattle.std.specs.Prelude.{◌≡◌, ◌%◌, ◌^◌, List, length, fold, sum_by};
ghost use Rattle.packet_fields.specs.declared.packet.PacketInfo.{PacketInfo};
ghost use Rattle.flow_work.specs.Count.{no_packets, counted};
ghost use Rattle.flow_work.specs.TcpFlags.{no_flags, flags_after, bits_of, packets_with};
ghost use Rattle.flow_work.specs.Gaps.{no_gap, gap_after, longest_gap};
ghost use Rattle.flow_work.specs.OrderFold.{folded, number_of};

use crate::{FIN, RST, SYN};

/// The number of packets is the length of the list, and their bytes are the sum of the lengths.
pub fn count_law()
    ensures packets { (ps : List PacketInfo) → (fold counted no_packets ps).packets ≡ length ps }
    ensures bytes { (ps : List PacketInfo) → (fold counted no_packets ps).bytes ≡ sum_by (λ p. p.original) ps }
{}

/// The flags are the bits that some packet has, and each count is the number of packets with its
/// bit.
pub fn flags_law()
    ensures flags { (ps : List PacketInfo) → (fold flags_after no_flags ps).flags ≡ bits_of ps }
    ensures syn { (ps : List PacketInfo) → (fold flags_after no_flags ps).syn ≡ packets_with SYN ps }
    ensures fin { (ps : List PacketInfo) → (fold flags_after no_flags ps).fin ≡ packets_with FIN ps }
    ensures rst { (ps : List PacketInfo) → (fold flags_after no_flags ps).rst ≡ packets_with RST ps }
{}

/// The gap is the greatest time between neighbours in the list.
pub fn gap_law()
    ensures { (ps : List PacketInfo) → (fold gap_after no_gap ps).greatest ≡ longest_gap ps }
{}

/// The number is that of the lengths as digits, of which 32 bits are kept.
pub fn order_law()
    ensures { (ps : List PacketInfo) → fold folded 0 ps ≡ number_of ps % 2 ^ 32 }
{}
