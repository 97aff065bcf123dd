// Laws of the greedy round and of the plan text.
ghost use Rattle.std.specs.Borrow.{sem};
ghost use Rattle.std.specs.Prelude.{◌≡◌, ◌≤◌, ◌↔◌, ◌⊎◌, ℕ, List, length};
ghost use Rattle.balancer.specs.Afterwards.{StaysMade};
ghost use Rattle.balancer.specs.Greedy.{RoundState, IsAllowed, AreBest, choices, greatest, greedy, greedy_round, opening, Lowers};
ghost use Rattle.balancer.specs.Moves.{AreMoves};
ghost use Rattle.balancer.specs.PlanForm.{Instance, instance_of};
ghost use Rattle.balancer.specs.PlanLines.{HasLines};
ghost use Rattle.balancer.specs.Standing.{AreLoads};

use crate::Balancer;
use crate::limits::MOST_PROPOSALS;
use indirection::{Loads, Proposal, Table};

/// Each proposal of a round lowers the imbalance by twice the square of the number of cores times
/// its gain, which is at least 1. No allowed pair gains more or comes before it with the same
/// gain, and a round ends early only where no pair is allowed.
pub fn rounds_lower()
    ensures lowers { (limit : ℕ) (s : RoundState) → Lowers s (greedy limit s) }
    ensures best { (limit : ℕ) (s : RoundState) → AreBest s (greedy limit s) }
    ensures none { (s : RoundState) (b d : ℕ) → greatest (choices s) ≡ None → IsAllowed s b d → ⊥ }
{}

/// A plan text spells an instance exactly where its lines do, each by its form, and each text
/// either spells an instance or has a first bad line.
pub fn plans_have_lines()
    ensures lines { (text : List ℕ) (p : Instance) → (instance_of text ≡ Ok p) ↔ HasLines text p }
    ensures one { (text : List ℕ) → ((p : Instance) × (instance_of text ≡ Ok p)) ⊎ ((line : ℕ) × (instance_of text ≡ Err line)) }
{}

/// The round by the plain choice among all pairs: as [`Balancer::propose`], proposal by proposal.
pub fn propose_plain<'a>(
    balancer: &'a mut Balancer,
    loads: &Loads,
    table: &Table,
    limit: u8,
) -> &'a [Proposal]
    requires cores { table.now.cores ≡ balancer.old.cores }
    requires buckets { length table.now.owners ≡ balancer.old.buckets }
    requires loads { AreLoads balancer.old.cores balancer.old.buckets loads.now }
    requires limit { limit ≤ MOST_PROPOSALS }
    ensures value { result.now ≡ greedy_round table.now.cores limit loads.now table.now.owners }
    ensures moves { AreMoves table.now.cores (length table.now.owners) result.now }
    ensures lowers { Lowers (opening table.now.cores loads.now table.now.owners) result.now }
    ensures* stays { sem 𝓛 (StaysMade balancer.entry result.now) }
{
    balancer.make_plain_round(loads, table, limit);
    balancer.proposals()
}
