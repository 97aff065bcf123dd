ghost use Rattle.std.specs.Prelude.{◌≡◌, ◌≤◌, ◌<◌, length, IfOk};
ghost use Rattle.indirection.specs.Tries.{owner_from, round_tries};
ghost use Rattle.indirection.specs.Rounds.{opened_round, round_with};

use crate::{Loads, Outcome, Proposal};
use rss_base::NoMemory;
use std::alloc::Global;
use std::marker::Model;

/// A round of balancing in the journal. It has no more outcomes than proposals, and room for one
/// outcome of each.
#[derive(Drop)]
pub struct RoundEntry {
    at: u32,
    loads: Loads,
    proposals: Vec<Proposal>,
    outcomes: Vec<Outcome>,
}

impl Model for RoundEntry {
    ghost use Rattle.std.specs.Prelude.{◌≤◌, vec_len, vec_capacity};
    ghost use Rattle.indirection.specs.Views.{RoundView};

    ghost Value = { RoundView };

    ghost view = { λ r. record { at = r.at; loads = r.loads; proposals = r.proposals.items; outcomes = r.outcomes.items } };

    ghost invariant = { λ r. (vec_len r.outcomes ≤ vec_len r.proposals) × (vec_len r.proposals ≤ vec_capacity r.outcomes) };
}

impl RoundEntry {
    /// A round with copies of its arguments, with no outcomes yet and room for one of each proposal.
    pub(crate) fn new(
        alloc: Global,
        at: u32,
        loads: &Loads,
        proposals: &[Proposal],
    ) -> Result<RoundEntry, NoMemory>
        ensures { IfOk result (λ r. r ≡ opened_round at loads.now proposals.now) }
    {
        let loads = loads.copy(alloc)?;
        let Ok(outcomes) = Vec::with_capacity(alloc, proposals.len()) else {
            return Err(NoMemory);
        };
        let Ok(proposals) = proposals.to_vec(alloc) else {
            return Err(NoMemory);
        };
        Ok(RoundEntry {
            at,
            loads,
            proposals,
            outcomes,
        })
    }

    /// Its position: it comes behind so many packets.
    pub fn at(&self) -> u32
        ensures { result ≡ self.now.at }
    {
        self.at
    }

    /// What was weighed.
    pub fn loads(&self) -> &Loads
        ensures { result.now ≡ self.now.loads }
    {
        &self.loads
    }

    /// What was proposed, in order.
    pub fn proposals(&self) -> &[Proposal]
        ensures { result.now ≡ self.now.proposals }
    {
        &self.proposals
    }

    /// What came of the first proposals, in order.
    pub fn outcomes(&self) -> &[Outcome]
        ensures value { result.now ≡ self.now.outcomes }
        ensures paired { length self.now.outcomes ≤ length self.now.proposals }
    {
        &self.outcomes
    }

    /// Adds what came of the next proposal.
    pub(crate) fn push_outcome(&mut self, outcome: Outcome)
        requires { length self.old.outcomes < length self.old.proposals }
        ensures { self.new ≡ round_with self.old outcome }
    {
        match self.outcomes.push(outcome) {
            Ok(()) => {}
            Err(_) => unreachable!(),
        }
    }

    /// Who owns a bucket behind the round, where a core owned it before.
    pub(crate) fn owner_after(&self, bucket: u16, owner: u8) -> u8
        ensures { result ≡ owner_from bucket owner (round_tries self.now.at self.now.proposals self.now.outcomes) }
    {
        let mut owner = owner;
        for (proposal, outcome) in self.proposals.iter().zip(self.outcomes.iter()) {
            if proposal.bucket == bucket {
                owner = outcome.owner(owner, proposal.to);
            }
        }
        owner
    }
}
