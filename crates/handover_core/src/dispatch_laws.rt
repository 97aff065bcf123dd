// Laws of what a journal, and what the machine, sends to the cores.
ghost use Rattle.std.specs.Prelude.{◌≡◌, ◌++◌, ◌<◌, ◌^◌, ℕ, List, length};
ghost use Rattle.indirection.specs.JournalView.{JournalView};
ghost use Rattle.indirection.specs.Story.{Parcel};
ghost use Rattle.indirection.specs.Stints.{stints};
ghost use Rattle.indirection.specs.Due.{Rules};
ghost use Rattle.indirection.specs.Lawful.{IsLawfulSoFar};
ghost use Rattle.handover_core.specs.declared.event.Event.{Event};
ghost use Rattle.handover_core.specs.declared.post.Post.{Post};
ghost use Rattle.handover_core.specs.State.{MachineView, first_state};
ghost use Rattle.handover_core.specs.Machine.{step, posts_by};
ghost use Rattle.handover_core.specs.Legal.{Legal};
ghost use Rattle.handover_core.specs.Dispatch.{stream, dispatched, dispatches};
ghost use Rattle.handover_core.specs.Runs.{Runs, IsMade};
ghost use Rattle.handover_core.specs.Told.{steps_in, ends_in};
ghost use Rattle.handover_core.specs.Spans.{spans_in, spans_at};

/// In a lawful journal the stretches of a bucket that stand in a core's stream are the bucket's
/// stints that this core has, in their order.
pub fn streams_have_the_stints()
    ensures { (rules : Rules) (xs : List Parcel) (j : JournalView) (cores b c : ℕ) → IsLawfulSoFar rules xs j → spans_in b (stream c (dispatches cores xs j)) ≡ spans_at c (stints j xs b) }
{}

/// What a lawful journal of fewer than 2^32 packets sends to a core is legal, and so it is at each
/// moment before the end.
pub fn streams_are_legal()
    ensures whole { (rules : Rules) (xs : List Parcel) (j : JournalView) (cores c : ℕ) → IsLawfulSoFar rules xs j → length xs < 2 ^ 32 → Legal (stream c (dispatches cores xs j)) }
    ensures fronts { (rules : Rules) (xs : List Parcel) (j : JournalView) (cores c : ℕ) (before behind : List Post) → IsLawfulSoFar rules xs j → length xs < 2 ^ 32 → dispatches cores xs j ≡ before ++ behind → Legal (stream c before) }
{}

/// Each event sends what `posts_by` says, and nothing else.
pub fn events_send()
    ensures { (m : MachineView) (event : Event) → (step m event).dispatched ≡ m.dispatched ++ posts_by m event }
{}

/// What a run sends is what its steps send as a journal tells them, in their order, and then Ends.
pub fn runs_send_their_steps()
    ensures { (owners : List ℕ) (cores : ℕ) (packets : List ℕ) (pool moves : ℕ) (events : List Event) (last : MachineView)
        → IsMade owners cores packets pool → Runs (first_state owners cores packets pool moves) events last
        → last.dispatched ≡ dispatched owners (steps_in (first_state owners cores packets pool moves) events) ++ ends_in events }
{}
