// Laws of the custody of a run: it is that of the run's journal.
ghost use Rattle.std.specs.Prelude.{◌≡◌, ◌<◌, ℕ, List, map, slice_index, IsPermutation};
ghost use Rattle.bucket_table.specs.declared.custody.Custody.{Custody};
ghost use Rattle.indirection.specs.JournalView.{JournalView};
ghost use Rattle.indirection.specs.Tries.{tries};
ghost use Rattle.indirection.specs.Story.{Parcel, count_in};
ghost use Rattle.indirection.specs.Stints.{stints};
ghost use Rattle.indirection.specs.Due.{Rules};
ghost use Rattle.indirection.specs.Lawful.{IsLawfulSoFar};
ghost use Rattle.handover_core.specs.Spans.{Span, spans_at};
ghost use Rattle.worker_loop.specs.Custodies.{AreEntries, stretch_of, ended_spans};
ghost use Rattle.rsspp_run.specs.Serial.{by_place};
ghost use Rattle.rsspp_run.specs.Custody.{Meet, times_in, all_spans, stint_span, IsOrdered, AreTo, all_logs, custody_upto};

/// Logs of which each has, for each bucket, the stints of the journal that its core has, are
/// together the custody of the journal, once they are in order by bucket and place.
pub fn logs_are_the_custody()
    ensures sorted { (rules : Rules) (xs : List Parcel) (j : JournalView) (cores n : ℕ) (logs : ℕ → List Custody) (cs : List Custody)
        → IsLawfulSoFar rules xs j → ((b : ℕ) → b < n → slice_index j.start b < cores) → AreTo cores (tries j.entries) → ((c : ℕ) → c < cores → AreEntries c n (logs c))
        → ((c b : ℕ) → c < cores → b < n → ended_spans b (map stretch_of (logs c)) ≡ spans_at c (stints j xs b))
        → IsOrdered cs → IsPermutation (all_logs logs cores) cs → cs ≡ custody_upto (stints j xs) n }
    ensures placed { (rules : Rules) (xs : List Parcel) (j : JournalView) (cores n : ℕ) (logs : ℕ → List Custody)
        → IsLawfulSoFar rules xs j → ((b : ℕ) → b < n → slice_index j.start b < cores) → AreTo cores (tries j.entries) → ((c : ℕ) → c < cores → AreEntries c n (logs c))
        → ((c b : ℕ) → c < cores → b < n → ended_spans b (map stretch_of (logs c)) ≡ spans_at c (stints j xs b))
        → by_place (all_logs logs cores) ≡ custody_upto (stints j xs) n }
{}

/// A chain of a bucket's stretches from 0 on that has each of them as often as all cores together
/// have it of the journal's stints is the chain of these stints, and ends where they do: at the
/// bucket's number of packets.
pub fn notes_have_the_stints()
    ensures { (rules : Rules) (xs : List Parcel) (j : JournalView) (cores b done : ℕ) (h : List Span)
        → IsLawfulSoFar rules xs j → slice_index j.start b < cores → AreTo cores (tries j.entries) → Meet 0 h done → ((s : Span) → times_in s h ≡ times_in s (all_spans (stints j xs b) cores))
        → (h ≡ map stint_span (stints j xs b)) × (done ≡ count_in b xs) }
{}
