// Laws of the journal text.
ghost use Rattle.std.specs.Prelude.{◌≡◌, List};
ghost use Rattle.bucket_table.specs.declared.custody.Custody.{Custody};
ghost use Rattle.indirection.specs.JournalView.{JournalView};
ghost use Rattle.flow_report.specs.JournalText.{journal_lines, journal_bytes, HasWholeRounds};
ghost use Rattle.flow_report.specs.JournalNumbers.{HasShortNumbers};

/// The text of a journal and of custody tells all of both: equal texts have the same lines, and
/// where each round has as many outcomes as proposals, they have the same journal and the same
/// custody. The second needs numbers of at most 64 digits; every number of the program's types is
/// one.
pub fn journal_texts_tell_all()
    ensures lines { (j k : JournalView) (c d : List Custody) →
        journal_bytes j c ≡ journal_bytes k d → journal_lines j c ≡ journal_lines k d }
    ensures all { (j k : JournalView) (c d : List Custody)
        → HasWholeRounds j.entries → HasWholeRounds k.entries
        → HasShortNumbers j c → HasShortNumbers k d
        → journal_bytes j c ≡ journal_bytes k d → (j ≡ k) × (c ≡ d) }
{}
