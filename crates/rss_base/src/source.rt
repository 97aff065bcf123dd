ghost use Rattle.std.specs.Prelude.{◌≡◌, ◌≤◌, List, ℕ, length, IfOk, Option};
ghost use Rattle.std.specs.Io.KnownBytes.{ReadConsumes};
ghost use Rattle.rss_base.specs.Faults.{HasCause};

use crate::Failed;

/// Bytes that come in pieces, up to an end.
pub trait Source {
    /// The bytes that are left, where the source tells them.
    ghost left: { Self → Option (List ℕ) };

    /// How many reads have failed. The count stops at the greatest `u64`.
    ghost faults: { Self → ℕ };

    /// What a source says of what it was made over.
    ghost Origin: { Type 0 } = { Unit {0} };

    /// What it was made over. No call changes it.
    ghost origin: { Self → Origin };

    /// Puts the next bytes at the front of `into`, and answers how many. For a piece that isn't
    /// empty, 0 says that nothing is left. A failed read takes nothing.
    fn read(&mut self, into: &mut [u8]) -> Result<usize, Failed>
        ensures bound { IfOk result (λ n. n ≤ length into.new) }
        ensures bytes { ReadConsumes (left self.old) (left self.new) result into.new }
        ensures cause { HasCause (faults self.old) (faults self.new) result }
        ensures origin { origin self.new ≡ origin self.old };
}
