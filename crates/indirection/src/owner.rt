ghost use Rattle.std.specs.Prelude.{◌≡◌, ◌<◌, length};
ghost use Rattle.indirection.specs.JournalView.{journal_view};
ghost use Rattle.indirection.specs.Owner.{owner_of};

use crate::Journal;

/// The owner of a bucket at a position: its entry in the starting table, changed by all moves and
/// placings that the journal has at positions up to it.
pub fn owner_at(journal: &Journal, bucket: u16, at: u32) -> u8
    requires { bucket < length journal.now.start.owners }
    ensures { result ≡ owner_of (journal_view journal.now) bucket at }
{
    let mut owner = journal.start().owner(bucket);
    for entry in journal.entries() {
        if entry.at() <= at {
            owner = entry.owner_after(bucket, owner);
        }
    }
    owner
}
