use std::cmp::Ordering;

/// What a packet is, as far as its flow is told.
#[derive(Clone, Copy, Debug, PartialEq, Eq, PartialOrd, Ord, Hash)]
pub enum Class {
    /// The 20 fixed bytes of a TCP header over IPv4.
    Tcp,
    /// A whole UDP header over IPv4.
    Udp,
    /// Any other IPv4 packet, fragments among them.
    Ip,
    /// The 20 fixed bytes of a TCP header over IPv6.
    Tcp6,
    /// A whole UDP header over IPv6.
    Udp6,
    /// Any other IPv6 packet, those with extension headers among them.
    Ip6,
    /// Any other frame.
    Other,
}

/// The flow that a packet belongs to. A field that its class doesn't have is 0. Keys are compared
/// field by field, in the order in which they stand here.
#[derive(Clone, Copy, Debug, PartialEq, Eq, PartialOrd, Ord, Hash)]
pub struct FlowKey {
    pub class: Class,
    /// The source address, of IPv4 as its 32-bit number, of IPv6 as its 128-bit number.
    pub source: u128,
    /// The destination address, likewise.
    pub destination: u128,
    pub source_port: u16,
    pub destination_port: u16,
    /// The protocol number of the IPv4 header, or the next header of that of IPv6.
    pub protocol: u8,
}

/// The key of what carries no packet of IPv4 or IPv6.
pub const OTHER: FlowKey = FlowKey {
    class: Class::Other,
    source: 0,
    destination: 0,
    source_port: 0,
    destination_port: 0,
    protocol: 0,
};

impl FlowKey {
    ghost use Rattle.std.specs.Prelude.{◌≡◌};
    ghost use Rattle.packet_fields.specs.Key.{key_cmp};

    /// How two keys compare, which is what the derived order answers.
    pub fn order(&self, other: &FlowKey) -> Ordering
        ensures { result ≡ key_cmp self.now other.now }
    {
        self.cmp(other)
    }
}
