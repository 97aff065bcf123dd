// The bytes that were read ahead.

/// Bytes that are read ahead at most: twice the captured bytes of the longest record, so that there is
/// room for a large read behind one.
pub const ROOM: usize = 524_288;

/// The bytes that were read ahead and not yet used.
pub type Window = rss_base::Window<ROOM>;
