ghost use Rattle.std.specs.Prelude.{◌≡◌, Option, Some, List, [], ◌∷◌, length, IfSome};
ghost use Rattle.packet_fields.specs.declared.packet.PacketInfo.{PacketInfo};
ghost use Rattle.packet_fields.specs.declared.key.TheConstants.{OTHER};

use super::{NoName, RunName};

// A run of one packet.
struct OnePacket;

impl RunName for OnePacket {
    ghost packets = { Some (record { key = OTHER; nanos = 0; original = 60; flags = 0 } ∷ []) };
}

// The length of the run that is named, which the caller knows.
fn length_of<N: RunName>(count: u64) -> u64
    requires { IfSome N.packets (λ packets. length packets ≡ count) }
    ensures { IfSome N.packets (λ packets. result ≡ length packets) }
{
    count
}

#[test]
fn a_type_names_the_packets_of_a_run(rt: HostRuntime) {
    assert_eq!(rt; length_of::<OnePacket>(1), 1);
    assert_eq!(rt; length_of::<NoName>(2), 2);
}
