// The search and the plain choice, side by side.
ghost use Rattle.std.specs.Prelude.{◌<◌, ◌≤◌, length, IfOk};
ghost use Rattle.balancer.specs.Standing.{AreLoads};

use crate::{Balancer, MOST_PROPOSALS, propose_plain};
use indirection::{Loads, Table};
use std::alloc::Global;
use std::test::Fail;

fn next(x: u32) -> u32 {
    x.wrapping_mul(1_664_525).wrapping_add(1_013_904_223)
}

// Loads below a bound, drawn for the table of this number. The bases are 0.
#[tactic(auto, using(crate::proofs::DrawnLoads::no_loads, crate::proofs::DrawnLoads::one_load))]
fn drawn(alloc: Global, table: &Table, number: u32, bound: u32) -> Result<Loads, Fail>
    requires number { number < 1_000 }
    requires bound { 0 < bound }
    ensures { IfOk result (AreLoads table.now.cores (length table.now.owners)) }
{
    let mut loads = Loads::new(alloc, table.buckets(), table.cores())?;
    for bucket in 0..table.buckets() {
        let draw = next(512 * number + u32::from(bucket));
        loads.set_bucket(bucket, u64::from(draw % bound));
    }
    Ok(loads)
}

// Whether both propose the same round.
fn alike(alloc: Global, loads: &Loads, table: &Table) -> Result<bool, Fail>
    requires { AreLoads table.now.cores (length table.now.owners) loads.now }
{
    let mut searching = Balancer::new(alloc, table.cores(), table.buckets())?;
    let mut plain = Balancer::new(alloc, table.cores(), table.buckets())?;
    let proposals = searching.propose(loads, table, MOST_PROPOSALS);
    Ok(proposals == propose_plain(&mut plain, loads, table, MOST_PROPOSALS))
}

#[test]
fn both_propose_alike(rt: HostRuntime) -> Result<(), Fail> {
    let table = Table::new(rt.alloc(), 64, 512)?;
    for number in 0..200 {
        let loads = drawn(rt.alloc(), &table, number, 1_000)?;
        assert!(rt; alike(rt.alloc(), &loads, &table)?);
    }
    Ok(())
}

// Few different loads on few cores, so that many gains are equal.
#[test]
fn both_break_ties_alike(rt: HostRuntime) -> Result<(), Fail> {
    let table = Table::new(rt.alloc(), 5, 500)?;
    for number in 0..50 {
        let loads = drawn(rt.alloc(), &table, number, 10)?;
        assert!(rt; alike(rt.alloc(), &loads, &table)?);
    }
    Ok(())
}
