use rss_base::Link;

/// A record of a capture.
#[derive(Clone, Copy, Debug)]
pub struct Record<'a> {
    /// Its number, from 0.
    pub number: u32,
    /// What its frame begins with.
    pub link: Link,
    /// When its frame was captured, in nanoseconds since the start of 1970.
    pub nanos: u64,
    /// The length of its frame on the wire, in bytes.
    pub original: u32,
    /// The captured bytes of its frame.
    pub bytes: &'a [u8],
}
