use crate::FlowKey;

/// What the flow functions see of a packet.
#[derive(Clone, Copy, Debug, PartialEq, Eq)]
pub struct PacketInfo {
    /// The flow that it belongs to.
    pub key: FlowKey,
    /// When it was captured, in nanoseconds since the start of 1970.
    pub nanos: u64,
    /// Its length on the wire, in bytes.
    pub original: u32,
    /// The control bits of its TCP header (RFC 9293, section 3.1), over IPv4 or IPv6, and 0 for the
    /// other classes.
    pub flags: u8,
}
