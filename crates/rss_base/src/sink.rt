ghost use Rattle.std.specs.Prelude.{◌≡◌, ◌≤◌, [], List, ℕ, length, take, IfOk, OnOk, OnErr};
ghost use Rattle.rss_base.specs.Faults.{HasCause};
ghost use Rattle.rss_base.specs.Written.{Gets, GetsFront};

use crate::Failed;

/// A place where bytes go.
pub trait Sink {
    /// Whether a list may be what was written. A sink that doesn't tell passes no list.
    ghost may_hold: { Self → List ℕ → Type 0 };

    /// How many writes have failed. The count stops at the greatest `u64`.
    ghost faults: { Self → ℕ };

    /// Appends a front of the piece, and answers its length, which is above 0 where the piece
    /// isn't empty. A failed write appends nothing.
    fn write(&mut self, piece: &[u8]) -> Result<usize, Failed>
        ensures bound { IfOk result (λ n. n ≤ length piece.now) }
        ensures some { IfOk result (λ n. n ≡ 0 → length piece.now ≡ 0) }
        ensures bytes { IfOk result (λ n. Gets (may_hold self.old) (may_hold self.new) (take n piece.now)) }
        ensures err { OnErr result (Gets (may_hold self.old) (may_hold self.new) []) }
        ensures cause { HasCause (faults self.old) (faults self.new) result };
}

/// Writes the whole piece. After [`Failed`] a front of it was written.
pub fn write_whole<K: Sink>(sink: &mut K, piece: &[u8]) -> Result<(), Failed>
    ensures ok { OnOk result (Gets (K.may_hold sink.old) (K.may_hold sink.new) piece.now) }
    ensures err { OnErr result (GetsFront (K.may_hold sink.old) (K.may_hold sink.new) piece.now) }
    ensures cause { HasCause (K.faults sink.old) (K.faults sink.new) result }
{
    let mut done = 0;
    while done < piece.len() {
        let taken = sink.write(&piece[done..])?;
        done += taken;
    }
    Ok(())
}
