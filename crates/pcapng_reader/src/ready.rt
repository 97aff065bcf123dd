// The bytes that are given before those of the window.
use rss_base::Window;

/// Bytes that there is room for: the last byte of a record, the header of the capture, and that of
/// the next record.
pub const READY: usize = 41;

/// The bytes that are given first.
pub type Ready = Window<READY>;
