// What a lawful journal says of its run, sentence by sentence.
ghost use Rattle.std.specs.Prelude.{◌≡◌, ◌<◌, ◌≤◌, ℕ, List, ◌∷◌, ◌++◌, map, length, All, Any};
ghost use Rattle.std.specs.List.Sorted.{IsNonDecreasing};
ghost use Rattle.indirection.specs.declared.order_entry.OrderEntry.{OrderEntry};
ghost use Rattle.indirection.specs.declared.entry.Entry.{Entry};
ghost use Rattle.indirection.specs.declared.entry.Entry.TheVariants.{Round, Order};
ghost use Rattle.indirection.specs.Views.{RoundView};
ghost use Rattle.indirection.specs.JournalView.{JournalView};
ghost use Rattle.indirection.specs.Rounds.{ArePaired};
ghost use Rattle.indirection.specs.Tries.{Try, tries};
ghost use Rattle.indirection.specs.Story.{Parcel, told, entries_of, count_in, sent_to};
ghost use Rattle.indirection.specs.Stints.{stints};
ghost use Rattle.indirection.specs.Owner.{owner_of};
ghost use Rattle.indirection.specs.Due.{Rules};
ghost use Rattle.indirection.specs.Lawful.{IsLawfulSoFar, IsLawful};
ghost use Rattle.indirection.specs.JournalFacts.{KeepOrder, orders_in, orders_up_to, rounds_in, rounds_up_to};
ghost use Rattle.indirection.specs.JournalFacts.{cost_owned, worked_at, IsRoundBehind, IsAnswered, HasPlace};

/// A story keeps the entries that it was told of, where no round has more outcomes than proposals.
pub fn stories_keep_their_entries()
    ensures { (xs : List Parcel) (es : List Entry) → ArePaired es → entries_of (told 0 xs es) ≡ es }
{}

/// In a lawful journal positions never fall, and at one position the round stands before the
/// orders. Its rounds stand at the multiples of the round length from one round length up to the
/// number of packets, once at each. Where the orders were given with positions that don't fall, its
/// orders are those for positions up to the number of packets, each once and in their order.
pub fn lawful_entries()
    ensures positions { (rules : Rules) (xs : List Parcel) (j : JournalView) →
        IsLawfulSoFar rules xs j → KeepOrder j.entries }
    ensures first { (rules : Rules) (xs : List Parcel) (j : JournalView)
        (front middle behind : List Entry) (e : OrderEntry) (r : RoundView) → IsLawfulSoFar rules xs j →
        j.entries ≡ front ++ Order e ∷ (middle ++ Round r ∷ behind) → e.order.at < r.at }
    ensures rounds { (rules : Rules) (xs : List Parcel) (j : JournalView) → IsLawful rules xs j →
        map (λ r. r.at) (rounds_in j.entries) ≡ rounds_up_to rules (length xs) }
    ensures orders { (rules : Rules) (xs : List Parcel) (j : JournalView) →
        IsNonDecreasing (map (λ m. m.at) rules.moves) → IsLawful rules xs j →
        orders_in j.entries ≡ orders_up_to rules (length xs) }
{}

/// In a lawful journal each round has as many outcomes as proposals. Its loads are the costs of
/// each bucket's packets at the positions of the last round length, no base is above what was sent
/// to its core before, its proposals are those of the rule, and what it takes a core to have
/// worked is no less than what an earlier round did.
pub fn lawful_rounds()
    ensures whole { (rules : Rules) (xs : List Parcel) (j : JournalView)
        (front behind : List Entry) (r : RoundView) → IsLawful rules xs j →
        j.entries ≡ front ++ Round r ∷ behind → length r.outcomes ≡ length r.proposals }
    ensures weighed { (rules : Rules) (xs : List Parcel) (j : JournalView)
        (front behind : List Entry) (r : RoundView) → IsLawfulSoFar rules xs j →
        j.entries ≡ front ++ Round r ∷ behind → IsRoundBehind rules xs j front r }
    ensures worked { (rules : Rules) (xs : List Parcel) (j : JournalView)
        (front middle behind : List Entry) (q r : RoundView) (c : ℕ) → IsLawfulSoFar rules xs j →
        j.entries ≡ front ++ Round q ∷ (middle ++ Round r ∷ behind) → c < rules.cores →
        worked_at j c xs q ≤ worked_at j c xs r }
{}

/// In a journal that is lawful so far each proposal and each order is answered by its case.
pub fn lawful_answers()
    ensures { (rules : Rules) (xs : List Parcel) (j : JournalView)
        (before behind : List Try) (t : Try) → IsLawfulSoFar rules xs j →
        tries j.entries ≡ before ++ t ∷ behind → IsAnswered xs j before t }
{}

/// In a journal that is lawful so far the stint that has a packet's place is of the core that owns
/// its bucket at its position, and there is one. What the story sends to a core is the cost,
/// together, of the packets that the core owns at their positions.
pub fn lawful_owners()
    ensures core { (rules : Rules) (before behind : List Parcel) (p : Parcel) (j : JournalView) →
        IsLawfulSoFar rules (before ++ p ∷ behind) j →
        All (λ s. HasPlace (count_in p.bucket before) s → s.core ≡ owner_of j p.bucket (length before))
        (stints j (before ++ p ∷ behind) p.bucket) }
    ensures stint { (rules : Rules) (before behind : List Parcel) (p : Parcel) (j : JournalView) →
        IsLawfulSoFar rules (before ++ p ∷ behind) j →
        Any (HasPlace (count_in p.bucket before)) (stints j (before ++ p ∷ behind) p.bucket) }
    ensures sent { (rules : Rules) (xs : List Parcel) (j : JournalView) (c : ℕ) →
        IsLawfulSoFar rules xs j → sent_to c j.start (told 0 xs j.entries) ≡ cost_owned j c xs }
{}
