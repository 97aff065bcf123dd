// The bytes that were read ahead.
ghost use Rattle.std.specs.Prelude.{◌≡◌, ◌≤◌, ◌<◌, length, OnOk, OnErr};
ghost use Rattle.std.specs.Io.KnownBytes.{Keeps, IsAtEnd, prepend_known};
ghost use Rattle.rss_base.specs.Faults.{HasCause};

use rss_base::{Failed, Source};

/// Bytes that are read ahead at most. The captured bytes of the longest record are so many.
pub const ROOM: usize = 262_144;

/// The bytes that were read ahead and not yet used.
pub type Window = rss_base::Window<ROOM>;

/// Reads on until that many bytes are there, or the source has no more.
pub fn fill<S: Source>(window: &mut Window, source: &mut S, want: usize) -> Result<(), Failed>
    requires { want ≤ ROOM }
    ensures still { Keeps (prepend_known window.old (S.left source.old)) (prepend_known window.new (S.left source.new)) }
    ensures end { OnOk result (length window.new < want → IsAtEnd (S.left source.new)) }
    ensures no_less { length window.old ≤ length window.new }
    ensures room { length window.new ≤ ROOM }
    ensures short { OnErr result (length window.new < want) }
    ensures cause { HasCause (S.faults source.old) (S.faults source.new) result }
    ensures origin { S.origin source.new ≡ S.origin source.old }
{
    'reading: while window.bytes().len() < want {
        if window.pull(source)? == 0 {
            return Ok(());
        }
    }
    Ok(())
}
