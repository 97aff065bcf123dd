// How the stream ends.
ghost use Rattle.std.specs.Prelude.{◌≡◌, ◌≤◌, IfOk};
ghost use Rattle.dispatch_loop.specs.Accepted.{IsAccepted};
ghost use Rattle.dispatch_loop.specs.declared.limits.TheConstants.{LEAST_PACKETS};

use crate::capture::{EVEN, capture};
use crate::rig::Rig;
use balancer::PolicyName;
use dispatch_loop::{DispatcherEnd, Options};
use flow_work::WorkName;
use indirection::Table;
use pcap_reader::{Break, ReadError};
use std::alloc::Global;
use std::test::Fail;
use toeplitz::DEFAULT_KEY;

// Two cores and two buckets, with room for all packets, and so many of them.
fn options(alloc: Global, packets: u32) -> Result<Options, Fail>
    requires { LEAST_PACKETS ≤ packets }
    ensures accepted { IfOk result IsAccepted }
    ensures cores { IfOk result (λ o. o.cores ≡ 2) }
{
    let start = Table::new(alloc, 2, 2)?;
    Ok(Options {
        key: DEFAULT_KEY,
        cores: 2,
        start,
        work: WorkName::Count,
        moves: Vec::new(alloc),
        round: 1_000,
        limit: 4,
        policy: PolicyName::Greedy,
        pool: 8,
        packets,
    })
}

// How the stream of these bytes ends, with so many packets at most, where these reads fail.
fn end(
    alloc: Global,
    packets: u32,
    bytes: Vec<u8>,
    fail_at: Vec<u64>,
) -> Result<Option<DispatcherEnd>, Fail>
    requires { LEAST_PACKETS ≤ packets }
{
    let mut rig = Rig::new(alloc, &options(alloc, packets)?, bytes, fail_at, 4)?;
    Ok(rig.finish(10))
}

#[test]
fn each_end_of_a_stream_is_told(rt: HostRuntime) -> Result<(), Fail> {
    let alloc = rt.alloc();
    let whole = capture(alloc, &[&EVEN, &EVEN, &EVEN])?;
    let cut = whole[..whole.len().saturating_sub(1)].to_vec(alloc)?;
    let ends = [
        end(alloc, 3, whole.to_vec(alloc)?, Vec::new(alloc))?,
        end(alloc, 2, whole.to_vec(alloc)?, Vec::new(alloc))?,
        end(alloc, 3, cut, Vec::new(alloc))?,
        end(alloc, 3, whole, vec![in alloc; 2]?)?,
    ];
    let short = Break::ShortRecord { at: 2, have: 69 };
    let wanted = [
        Some(DispatcherEnd::AtEnd),
        Some(DispatcherEnd::TooMany { limit: 2 }),
        Some(DispatcherEnd::Refused(ReadError::Broken(short))),
        Some(DispatcherEnd::Refused(ReadError::ReadFault)),
    ];
    assert!(rt; ends == wanted);
    Ok(())
}
