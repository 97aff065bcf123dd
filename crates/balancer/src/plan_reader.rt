// A whole plan text.
ghost use Rattle.std.specs.Prelude.{◌≡◌, ◌≤◌, ◌<◌, [], ◌∷◌, ◌++◌, length, IfOk, IfErr, OnOk, vec_capacity};
ghost use Rattle.std.specs.Io.KnownBytes.{prepend_known};
ghost use Rattle.balancer.specs.PlanReading.{HasReadCause};
ghost use Rattle.balancer.specs.PlanRead.{ReadsHead, IsHead, ReadsBuckets, AreBuckets, ReadsPlan, IsPlan, instance_of_plan};

use crate::PlanFault;
use crate::limits::{FIRST_BUCKET_LINE, MOST_PROPOSALS};
use crate::line::{NextLine, next_line};
use crate::number::LONGEST_LINE;
use crate::plan_line::{read_base, read_bucket, read_one};
use crate::window::Window;
use indirection::{Loads, MOST_BUCKETS, MOST_CORES, Table, TableFault};
use rss_base::{NoMemory, Source};
use std::alloc::Global;

/// What the first three lines tell.
#[derive(Drop)]
pub struct Head {
    pub cores: u8,
    pub limit: u8,
    pub base: Vec<u64>,
}

// Reads the first three lines.
fn read_head<S: Source>(
    alloc: Global,
    window: &mut Window,
    source: &mut S,
    numbers: &mut Vec<u64>,
) -> Result<Head, PlanFault>
    requires room { LONGEST_LINE < vec_capacity numbers.old }
    ensures comes { ReadsHead (prepend_known window.old (S.left source.old)) (prepend_known window.new (S.left source.new)) result }
    ensures within { IfOk result IsHead }
    ensures room { vec_capacity numbers.new ≡ vec_capacity numbers.old }
    ensures cause { HasReadCause (S.faults source.old) (S.faults source.new) result }
    ensures origin { S.origin source.new ≡ S.origin source.old }
{
    let cores = match read_one(window, source, numbers, b"cores", 1, 1, MOST_CORES as u64) {
        Ok(cores) => cores as u8,
        Err(fault) => return Err(fault),
    };
    let limit = match read_one(
        window,
        source,
        numbers,
        b"limit",
        2,
        0,
        MOST_PROPOSALS as u64,
    ) {
        Ok(limit) => limit as u8,
        Err(fault) => return Err(fault),
    };
    match read_base(alloc, window, source, numbers, cores) {
        Ok(base) => Ok(Head { cores, limit, base }),
        Err(fault) => Err(fault),
    }
}

// Adds a bucket.
fn push_bucket(
    owners: &mut Vec<u8>,
    loads: &mut Vec<u64>,
    owner: u8,
    load: u64,
) -> Result<(), NoMemory>
    ensures { OnOk result ((owners.new.items ≡ owners.old.items ++ owner ∷ []) × (loads.new.items ≡ loads.old.items ++ load ∷ [])) }
{
    match (owners.push(owner), loads.push(load)) {
        (Ok(()), Ok(())) => Ok(()),
        _ => Err(NoMemory),
    }
}

// Reads the lines of the buckets, up to the end of the text.
fn read_buckets<S: Source>(
    window: &mut Window,
    source: &mut S,
    numbers: &mut Vec<u64>,
    cores: u8,
    owners: &mut Vec<u8>,
    loads: &mut Vec<u64>,
) -> Result<(), PlanFault>
    requires room { LONGEST_LINE < vec_capacity numbers.old }
    requires no_owner { owners.old.items ≡ [] }
    requires no_load { loads.old.items ≡ [] }
    ensures comes { ReadsBuckets cores (prepend_known window.old (S.left source.old)) (S.left source.new) owners.new.items loads.new.items result }
    ensures within { OnOk result (AreBuckets cores owners.new.items loads.new.items) }
    ensures some { OnOk result (1 ≤ length owners.new.items) }
    ensures cause { HasReadCause (S.faults source.old) (S.faults source.new) result }
    ensures origin { S.origin source.new ≡ S.origin source.old }
{
    let behind = FIRST_BUCKET_LINE + u32::from(MOST_BUCKETS);
    'buckets: for line in FIRST_BUCKET_LINE..behind {
        match read_bucket(window, source, numbers, cores, line) {
            Ok(Some((owner, load))) => {
                match push_bucket(owners, loads, owner, load) {
                    Ok(()) => {}
                    Err(_) => return Err(PlanFault::NoMemory),
                }
            }
            Ok(None) => {
                if line == FIRST_BUCKET_LINE {
                    return Err(PlanFault::BadLine { line });
                }
                return Ok(());
            }
            Err(fault) => return Err(fault),
        }
    }
    match next_line(window, source) {
        Ok(NextLine::End) => Ok(()),
        Ok(_) => Err(PlanFault::BadLine { line: behind }),
        Err(_) => Err(PlanFault::ReadFault),
    }
}

/// The instance that a plan text spells.
#[derive(Drop)]
pub struct Plan {
    pub limit: u8,
    pub loads: Loads,
    pub table: Table,
}

// The fault of a list of owners that are in order, which is want of memory.
fn fault_of(fault: TableFault) -> PlanFault
    requires { fault ≡ TableFault.NoMemory }
    ensures { result ≡ PlanFault.NoMemory }
{
    match fault {
        TableFault::NoMemory => PlanFault::NoMemory,
        TableFault::BadCount { .. } | TableFault::BadCore { .. } => unreachable!(),
    }
}

// Makes a plan of what was read.
fn make_plan(alloc: Global, head: Head, owners: &[u8], loads: Vec<u64>) -> Result<Plan, PlanFault>
    requires head { IsHead head }
    requires buckets { AreBuckets head.cores owners.now loads.items }
    requires some { 1 ≤ length owners.now }
    ensures value { IfOk result (λ plan. instance_of_plan plan ≡ record { cores = head.cores; limit = head.limit; loads = record { bucket = loads.items; base = head.base.items }; owners = owners.now }) }
    ensures within { IfOk result IsPlan }
    ensures err { IfErr result (λ fault. fault ≡ PlanFault.NoMemory) }
{
    let buckets = owners.len() as u16;
    match Table::of_list(alloc, head.cores, buckets, owners) {
        Ok(table) => Ok(Plan {
            limit: head.limit,
            loads: Loads::of_lists(loads, head.base),
            table,
        }),
        Err(fault) => Err(fault_of(fault)),
    }
}

/// Reads a plan text to its end, or to its first bad line.
pub fn read_plan<S: Source>(alloc: Global, source: &mut S) -> Result<Plan, PlanFault>
    ensures comes { ReadsPlan (S.left source.old) (S.left source.new) result }
    ensures within { IfOk result IsPlan }
    ensures cause { HasReadCause (S.faults source.old) (S.faults source.new) result }
    ensures origin { S.origin source.new ≡ S.origin source.old }
{
    let (Ok(mut window), Ok(mut numbers)) = (
        Window::new(alloc),
        Vec::with_capacity(alloc, LONGEST_LINE + 1),
    ) else {
        return Err(PlanFault::NoMemory);
    };
    let head = match read_head(alloc, &mut window, source, &mut numbers) {
        Ok(head) => head,
        Err(fault) => return Err(fault),
    };
    let mut owners = Vec::new(alloc);
    let mut loads = Vec::new(alloc);
    match read_buckets(
        &mut window,
        source,
        &mut numbers,
        head.cores,
        &mut owners,
        &mut loads,
    ) {
        Ok(()) => {}
        Err(fault) => return Err(fault),
    }
    make_plan(alloc, head, &owners, loads)
}
