ghost use Rattle.std.specs.Prelude.{◌≡◌, ◌≤◌, OnOk, OnErr};
ghost use Rattle.rss_base.specs.Faults.{HasCause};
ghost use Rattle.rss_base.specs.Written.{Gets, GetsFront};
ghost use Rattle.traffic_gen.specs.Traffic.{traffic};

use crate::TrafficSource;
use crate::layout::MOST_RECORDS;
use rss_base::{Failed, Sink, write_whole};

/// The most bytes that are written at once.
pub const PIECE: usize = 4096;

/// Writes so many records of a number's traffic as a capture, and takes no memory. After [`Failed`]
/// a front of it was written.
pub fn make<K: Sink>(out: &mut K, count: u32, number: u32) -> Result<(), Failed>
    requires { count ≤ MOST_RECORDS }
    ensures ok { OnOk result (Gets (K.may_hold out.old) (K.may_hold out.new) (traffic count number)) }
    ensures err { OnErr result (GetsFront (K.may_hold out.old) (K.may_hold out.new) (traffic count number)) }
    ensures cause { HasCause (K.faults out.old) (K.faults out.new) result }
{
    let mut source = TrafficSource::new(count, number);
    let mut piece = [0; PIECE];
    'pieces: loop {
        let size = source.give(&mut piece);
        if size == 0 {
            return Ok(());
        }
        write_whole(out, &piece[..size])?;
    }
}
