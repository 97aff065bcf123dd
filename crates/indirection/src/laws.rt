// Laws of the definitions.
ghost use Rattle.std.specs.Prelude.{◌≡◌, ◌↔◌, ◌<◌, ℕ, true, List, [], ◌∷◌, ◌++◌, length, slice_get, Some, None};
ghost use Rattle.indirection.specs.declared.entry.Entry.{Entry};
ghost use Rattle.indirection.specs.declared.entry.Entry.TheVariants.{Round, Order};
ghost use Rattle.indirection.specs.declared.move_order.MoveOrder.{MoveOrder};
ghost use Rattle.indirection.specs.declared.outcome.Outcome.{Outcome};
ghost use Rattle.indirection.specs.declared.proposal.Proposal.{Proposal};
ghost use Rattle.indirection.specs.Views.{RoundView};
ghost use Rattle.indirection.specs.JournalView.{JournalView};
ghost use Rattle.indirection.specs.Buckets.{total_by};
ghost use Rattle.indirection.specs.Rounds.{last_round, opened_round, round_with, entries_with};
ghost use Rattle.indirection.specs.Tries.{Proposed, Ordered, tries, tails};
ghost use Rattle.indirection.specs.Story.{Parcel, RoundHead, Step, Rounds, Tries, Sends, told, owner_then, parcels_of, tries_of, count_in};
ghost use Rattle.indirection.specs.Stints.{Rises, Joins, stints};
ghost use Rattle.indirection.specs.Due.{Rules, due, position, PacketDue};
ghost use Rattle.indirection.specs.Owner.{owner_of};
ghost use Rattle.indirection.specs.Lawful.{Fits, IsLawfulSoFar, IsLawful};
ghost use Rattle.indirection.specs.Judge.{lawful};

/// A story has the packets that it was told of, and the tries of the entries, in their order. How
/// many packets a bucket has is the length of the list of its packets.
pub fn stories()
    ensures packets { (xs : List Parcel) (es : List Entry) → parcels_of (told 0 xs es) ≡ xs }
    ensures tries { (xs : List Parcel) (es : List Entry) → tries_of (told 0 xs es) ≡ tries es }
    ensures totals { (b : ℕ) (xs : List Parcel) → count_in b xs ≡ total_by (λ (p : Parcel). p.bucket) b xs }
{}

/// The round that gains an outcome is the one behind which no round stands.
pub fn last_rounds()
    ensures found { (front behind : List Entry) (r : RoundView) → last_round behind ≡ None → last_round (front ++ Round r ∷ behind) ≡ Some r }
    ensures gains { (front behind : List Entry) (r : RoundView) (o : Outcome) → last_round behind ≡ None → entries_with (front ++ Round r ∷ behind) o ≡ front ++ Round (round_with r o) ∷ behind }
{}

/// In a journal that is lawful so far the tails of a bucket rise strictly, its stints lie one
/// behind the other from 0 to its number of packets, and the owner at a packet's position is the
/// core that owned the bucket when the packet was sent. A journal is lawful where its test says so.
pub fn lawful_journals()
    ensures tails { (rules : Rules) (xs : List Parcel) (j : JournalView) (b : ℕ) → IsLawfulSoFar rules xs j → Rises 0 (tails b (tries j.entries)) (count_in b xs) }
    ensures stints { (rules : Rules) (xs : List Parcel) (j : JournalView) (b : ℕ) → IsLawfulSoFar rules xs j → Joins 0 (stints j xs b) (count_in b xs) }
    ensures owner { (rules : Rules) (xs : List Parcel) (j : JournalView) (before after : List Step) (p : Parcel) (b : ℕ) → IsLawfulSoFar rules xs j → told 0 xs j.entries ≡ before ++ Sends p ∷ after → owner_of j b (position before) ≡ owner_then j.start before b }
    ensures tested { (rules : Rules) (xs : List Parcel) (j : JournalView) → (lawful rules xs j ≡ true) ↔ IsLawful rules xs j }
{}

/// A journal that is lawful so far stays so with what is due next: a packet, an order, a round
/// that has no outcome yet, or an outcome of its last round.
pub fn lawful_steps()
    ensures packet { (rules : Rules) (xs : List Parcel) (j : JournalView) (p : Parcel) → IsLawfulSoFar rules xs j → due rules (told 0 xs j.entries) ≡ PacketDue → IsLawfulSoFar rules (xs ++ p ∷ []) j }
    ensures order { (rules : Rules) (xs : List Parcel) (j : JournalView) (m : MoveOrder) (o : Outcome) → IsLawfulSoFar rules xs j → m.at ≡ length xs → Fits rules (told 0 xs j.entries) (Tries (Ordered m) o) → IsLawfulSoFar rules xs (record j { entries = j.entries ++ Order (record { order = m; outcome = o }) ∷ [] }) }
    ensures round { (rules : Rules) (xs : List Parcel) (j : JournalView) (h : RoundHead) → IsLawfulSoFar rules xs j → Fits rules (told 0 xs j.entries) (Rounds h) → IsLawfulSoFar rules xs (record j { entries = j.entries ++ Round (opened_round h.at h.loads h.proposals) ∷ [] }) }
    ensures outcome { (rules : Rules) (xs : List Parcel) (start : List ℕ) (front : List Entry) (r : RoundView) (p : Proposal) (o : Outcome) → IsLawfulSoFar rules xs (record { start = start; entries = front ++ Round r ∷ [] }) → r.at ≡ length xs → slice_get r.proposals (length r.outcomes) ≡ Some p → Fits rules (told 0 xs (front ++ Round r ∷ [])) (Tries (Proposed r.at p) o) → IsLawfulSoFar rules xs (record { start = start; entries = front ++ Round (round_with r o) ∷ [] }) }
{}
