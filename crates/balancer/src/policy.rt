// What makes the proposals of a round.
ghost use Rattle.std.specs.Borrow.{sem};
ghost use Rattle.std.specs.Prelude.{◌≡◌, ◌≤◌, ℕ, List, length};
ghost use Rattle.std.specs.Io.BufRead.{Rests};
ghost use Rattle.indirection.specs.declared.proposal.Proposal.{Proposal};
ghost use Rattle.indirection.specs.Views.{LoadsView};
ghost use Rattle.balancer.specs.Policies.{Stated, AreProposals};
ghost use Rattle.balancer.specs.Standing.{AreLoads};

use crate::limits::MOST_PROPOSALS;
use indirection::{Loads, Proposal, Table};

/// A rule by which rounds propose moves. What it proposes depends on what it states of itself, the
/// loads, the table and the limit, and on nothing that it met in earlier rounds.
pub trait Policy: Drop {
    /// What it states of itself. No call changes it.
    ghost stated: { Self → Stated };

    /// The proposals of a round, by what is stated, the loads, the owners and the limit.
    ghost proposals: { Stated → LoadsView → List ℕ → ℕ → List Proposal };

    /// The proposals of a round, by the loads and the table before it: at most `limit`, each of
    /// another bucket, from its owner to another core. It takes no memory.
    fn propose(&mut self, loads: &Loads, table: &Table, limit: u8) -> &[Proposal]
        requires cores { table.now.cores ≡ (stated self.old).cores }
        requires buckets { length table.now.owners ≡ (stated self.old).buckets }
        requires loads { AreLoads (stated self.old).cores (stated self.old).buckets loads.now }
        requires limit { limit ≤ MOST_PROPOSALS }
        ensures value { result.now ≡ proposals (stated self.old) loads.now table.now.owners limit }
        ensures legal { AreProposals table.now.cores limit table.now.owners result.now }
        ensures* stays { sem 𝓛 (Rests Self.row self.entry (λ new. stated new ≡ stated self.old)) };
}
