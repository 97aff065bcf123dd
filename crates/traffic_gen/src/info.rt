ghost use Rattle.std.specs.Prelude.{◌≡◌, ◌<◌};
ghost use Rattle.rss_base.specs.declared.link.Link.TheVariants.{Ethernet};
ghost use Rattle.packet_fields.specs.Frame.{fields_of};
ghost use Rattle.traffic_gen.specs.Info.{info_of};
ghost use Rattle.traffic_gen.specs.Packet.{tcp_frame, udp_frame, length_of};
ghost use Rattle.traffic_gen.specs.Traffic.{nanos_of};

use crate::draw::flow_of;
use crate::frame::{flags_of, length_of};
use crate::layout::{
    DESTINATION, FIRST_PORT, FIRST_SOURCE, NANOSECONDS_APART, TCP_DESTINATION, UDP_DESTINATION,
};
use packet_fields::{Class, FlowKey, PROTOCOL_TCP, PROTOCOL_UDP, PacketInfo};

// When the packet at an index was captured, in nanoseconds.
fn nanos_of(index: u32) -> u64
    ensures { result ≡ nanos_of index }
{
    NANOSECONDS_APART * u64::from(index)
}

// The fields of the packet of a TCP flow at an index.
fn tcp_info(flow: u16, index: u32) -> PacketInfo
    requires { flow < 1024 }
    ensures { result ≡ fields_of Ethernet (tcp_frame flow index) (nanos_of index) (length_of index) }
{
    PacketInfo {
        key: FlowKey {
            class: Class::Tcp,
            source: u128::from(FIRST_SOURCE + u32::from(flow)),
            destination: u128::from(DESTINATION),
            source_port: FIRST_PORT + flow,
            destination_port: TCP_DESTINATION,
            protocol: PROTOCOL_TCP,
        },
        nanos: nanos_of(index),
        original: length_of(index),
        flags: flags_of(index),
    }
}

// The fields of the packet of a UDP flow at an index.
fn udp_info(flow: u16, index: u32) -> PacketInfo
    requires { flow < 1024 }
    ensures { result ≡ fields_of Ethernet (udp_frame flow index) (nanos_of index) (length_of index) }
{
    PacketInfo {
        key: FlowKey {
            class: Class::Udp,
            source: u128::from(FIRST_SOURCE + u32::from(flow)),
            destination: u128::from(DESTINATION),
            source_port: FIRST_PORT + flow,
            destination_port: UDP_DESTINATION,
            protocol: PROTOCOL_UDP,
        },
        nanos: nanos_of(index),
        original: length_of(index),
        flags: 0,
    }
}

/// The fields of the packet at an index of a number's traffic: what [`packet_fields::fields`]
/// answers for what is captured of it.
pub fn info_at(number: u32, index: u32) -> PacketInfo
    ensures { result ≡ info_of number index }
{
    let flow = flow_of(number, index);
    if flow % 2 == 0 {
        tcp_info(flow, index)
    } else {
        udp_info(flow, index)
    }
}
