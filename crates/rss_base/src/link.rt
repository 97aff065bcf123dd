/// What the bytes of a captured frame begin with (libpcap's LinkType).
#[derive(Clone, Copy, Debug, PartialEq, Eq)]
pub enum Link {
    /// An Ethernet header (LINKTYPE_ETHERNET, 1).
    Ethernet,
    /// The header of an IPv4 or IPv6 packet, whose first four bits tell which (LINKTYPE_RAW, 101).
    Raw,
}
