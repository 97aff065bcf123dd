// The bytes that were read ahead.
ghost use Rattle.std.specs.Prelude.{◌≡◌, ◌≤◌, length, OnOk, ◌==◌};
ghost use Rattle.std.specs.List.{position_or_len};
ghost use Rattle.std.specs.Io.KnownBytes.{Keeps, IsAtEnd, prepend_known};
ghost use Rattle.rss_base.specs.Faults.{HasCause};

use crate::number::LONGEST_LINE;
use crate::place::{LINE_FEED, place_of};
use rss_base::{Failed, Source};

/// Bytes that are read ahead at most. The longest line has fewer.
pub const ROOM: usize = 65_536;

/// The bytes that were read ahead and not yet used.
pub type Window = rss_base::Window<ROOM>;

/// Reads on until a line feed is there, or more bytes than the longest line has, or the source has
/// no more.
pub fn fill_line<S: Source>(window: &mut Window, source: &mut S) -> Result<(), Failed>
    ensures still { Keeps (prepend_known window.old (S.left source.old)) (prepend_known window.new (S.left source.new)) }
    ensures end { OnOk result ((length window.new ≤ LONGEST_LINE) → (length window.new ≤ position_or_len (λ x. x == 10) window.new) → IsAtEnd (S.left source.new)) }
    ensures cause { HasCause (S.faults source.old) (S.faults source.new) result }
    ensures origin { S.origin source.new ≡ S.origin source.old }
{
    'reading: while window.bytes().len() <= LONGEST_LINE {
        let bytes = window.bytes();
        if place_of(LINE_FEED, bytes) < bytes.len() {
            return Ok(());
        }
        if window.pull(source)? == 0 {
            return Ok(());
        }
    }
    Ok(())
}
