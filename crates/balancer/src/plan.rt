// A plan, from its text to its answer.
ghost use Rattle.std.specs.Prelude.{◌≡◌, ◌≢◌, List, ℕ, length, IfOk, IfErr, OnOk, IsErrOf, MatchResult};
ghost use Rattle.std.specs.Io.KnownBytes.{IsAtEnd};
ghost use Rattle.rss_base.specs.Faults.{NoneFailed};
ghost use Rattle.rss_base.specs.Written.{Gets, GetsFront};
ghost use Rattle.balancer.specs.Moves.{AreMoves};
ghost use Rattle.balancer.specs.PlanForm.{Instance, instance_of};
ghost use Rattle.balancer.specs.PlanRead.{IsPlan, instance_of_plan};
ghost use Rattle.balancer.specs.PlanText.{owners_behind, plan_of};
ghost use Rattle.balancer.specs.PlanAnswer.{Spells, Refuses, MayBlameRead, MayBlameWrite, IsDone, IsRefused};

use crate::plan_reader::{Plan, read_plan};
use crate::round_text::{put_loads, put_moves};
use crate::weigh::weigh;
use crate::{Balancer, PlanFault};
use indirection::{Proposal, Table};
use rss_base::{NoMemory, Sink, Source, Text, write_whole};
use std::alloc::Global;

// Makes the moves that were proposed.
fn make_moves(proposals: &[Proposal], table: &mut Table)
    requires { AreMoves table.old.cores (length table.old.owners) proposals.now }
    ensures { table.new ≡ record table.old { owners = owners_behind table.old.owners proposals.now } }
{
    for proposal in proposals {
        table.set(proposal.bucket, proposal.to);
    }
}

// Makes the text of a plan: its round, and what the cores carry after it.
fn make_text(alloc: Global, plan: Plan) -> Result<Text, NoMemory>
    requires { IsPlan plan }
    ensures { IfOk result (λ text. text ≡ plan_of (instance_of_plan plan)) }
{
    let Plan {
        limit,
        loads,
        mut table,
    } = plan;
    let mut balancer = Balancer::new(alloc, table.cores(), table.buckets())?;
    let mut text = Text::new(alloc);
    let proposals = balancer.propose(&loads, &table, limit);
    put_moves(proposals, &mut text)?;
    make_moves(proposals, &mut table);
    let Ok(mut carried) = vec![in alloc; 0; table.cores() as usize] else {
        return Err(NoMemory);
    };
    weigh(&mut carried, &loads, table.owners());
    put_loads(&carried, &mut text)?;
    Ok(text)
}

/// Reads a plan text to its end, and writes the proposals of its round, what the cores carry after
/// them, and the imbalance after them. A bad line ends the reading, and so does a failed read;
/// after either, and after [`PlanFault::NoMemory`], nothing was written. After
/// [`PlanFault::WriteFault`] a front of the text was.
pub fn plan_text<S: Source, K: Sink>(
    alloc: Global,
    source: &mut S,
    out: &mut K,
) -> Result<(), PlanFault>
    ensures done { OnOk result ((p : Instance) × Spells (S.left source.old) p × Gets (K.may_hold out.old) (K.may_hold out.new) (plan_of p) × IsAtEnd (S.left source.new)) }
    ensures refused { IfErr result (λ fault. Refuses (S.left source.old) fault) }
    ensures silent { IfErr result (λ fault. fault ≢ PlanFault.WriteFault → out.new ≡ out.old) }
    ensures front { IsErrOf result PlanFault.WriteFault → (p : Instance) × Spells (S.left source.old) p × IsAtEnd (S.left source.new) × GetsFront (K.may_hold out.old) (K.may_hold out.new) (plan_of p) }
    ensures reads { MatchResult result (λ _. S.faults source.new ≡ S.faults source.old) (λ fault. MayBlameRead fault (S.faults source.old) (S.faults source.new)) }
    ensures writes { MatchResult result (λ _. K.faults out.new ≡ K.faults out.old) (λ fault. MayBlameWrite fault (K.faults out.old) (K.faults out.new)) }
    ensures complete { (bytes : List ℕ) (p : Instance) → S.left source.old ≡ Some bytes → instance_of bytes ≡ Ok p
        → NoneFailed (S.faults source.old) (S.faults source.new) → NoneFailed (K.faults out.old) (K.faults out.new) → IsDone result }
    ensures first { (bytes : List ℕ) (line : ℕ) → S.left source.old ≡ Some bytes → instance_of bytes ≡ Err line
        → NoneFailed (S.faults source.old) (S.faults source.new) → IsRefused line result }
    ensures origin { S.origin source.new ≡ S.origin source.old }
{
    let plan = match read_plan(alloc, source) {
        Ok(plan) => plan,
        Err(fault) => return Err(fault),
    };
    let text = match make_text(alloc, plan) {
        Ok(text) => text,
        Err(_) => return Err(PlanFault::NoMemory),
    };
    match write_whole(out, text.bytes()) {
        Ok(()) => Ok(()),
        Err(_) => Err(PlanFault::WriteFault),
    }
}
