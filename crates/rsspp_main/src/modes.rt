// The modes of the program, each by the command that asks for it.
ghost use Rattle.std.specs.Prelude.{◌≡◌, ◌≤◌, None, Some, OnOk, OnErr, IfErr, MatchResult};
ghost use Rattle.rss_base.specs.Faults.{HasCause};
ghost use Rattle.rss_base.specs.Written.{Gets, GetsFront};
ghost use Rattle.traffic_gen.specs.Traffic.{traffic};
ghost use Rattle.rsspp_main.specs.Listing.{listing, ExplainsListing};
ghost use Rattle.rsspp_main.specs.Plan.{plan_fault, ExplainsPlan};
ghost use Rattle.rsspp_main.specs.Run.{ends_at};

use crate::TopFault;
use crate::input::{answer_to_listing, fault_of_opening};
use crate::listing::list_hashes;
use balancer::{PlanFault, plan_text};
use command_words::Command;
use pcapng_reader::{NgOpening, NgSource};
use rss_base::{Sink, Source};
use std::alloc::Global;
use toeplitz::KeyTables;
use traffic_gen::{MOST_RECORDS, make};

/// Lists the hash, bucket and core of each packet of the capture on the source, by the command's
/// key and starting table.
pub fn hash_listing<S: Source, K: Sink>(
    alloc: Global,
    command: &Command,
    source: &mut S,
    out: &mut K,
) -> Result<(), TopFault>
    ensures outcome { let at = ends_at S.left S.faults K.faults K.may_hold in
        let before = at source.old out.old in let now = at source.new out.new in
        let text = listing command.now.options.key command.now.options.start.owners in
        let explains = ExplainsListing command.now.options.packets text before now in
        MatchResult result (λ _. explains None) (λ fault. explains (Some fault)) }
    ensures origin { S.origin source.new ≡ S.origin source.old }
{
    let options = &command.options;
    let key = match KeyTables::new(alloc, &options.key) {
        Ok(key) => key,
        Err(_) => return Err(TopFault::NoMemory),
    };
    let opening = match NgOpening::read(alloc, source) {
        Ok(opening) => opening,
        Err(error) => return Err(fault_of_opening(error)),
    };
    let mut input = NgSource::over(opening, source);
    let listed = list_hashes(
        alloc,
        options.packets,
        &key,
        &options.start,
        &mut input,
        out,
    );
    let broken = input.broken();
    let _ = input.into_inner();
    answer_to_listing(listed, broken)
}

// The fault that a fault of a plan is.
fn fault_of_plan(fault: PlanFault) -> TopFault
    ensures { result ≡ plan_fault fault }
{
    match fault {
        PlanFault::ReadFault => TopFault::ReadFault,
        PlanFault::WriteFault => TopFault::WriteFault,
        PlanFault::BadLine { line } => TopFault::Line { line },
        PlanFault::NoMemory => TopFault::NoMemory,
    }
}

/// Reads a plan text on the source, and writes the moves of its round, and the loads and the
/// imbalance after them.
pub fn plan<S: Source, K: Sink>(alloc: Global, source: &mut S, out: &mut K) -> Result<(), TopFault>
    ensures outcome { let at = ends_at S.left S.faults K.faults K.may_hold in
        let before = at source.old out.old in let now = at source.new out.new in
        let explains = ExplainsPlan before now in
        MatchResult result (λ _. explains None) (λ fault. explains (Some fault)) }
    ensures origin { S.origin source.new ≡ S.origin source.old }
{
    match plan_text(alloc, source, out) {
        Ok(()) => Ok(()),
        Err(fault) => Err(fault_of_plan(fault)),
    }
}

/// Writes the generated capture of the command's two values, and takes no memory.
pub fn make_capture<K: Sink>(command: &Command, out: &mut K) -> Result<(), TopFault>
    requires { command.now.count ≤ MOST_RECORDS }
    ensures ok { OnOk result (Gets (K.may_hold out.old) (K.may_hold out.new) (traffic command.now.count command.now.number)) }
    ensures err { OnErr result (GetsFront (K.may_hold out.old) (K.may_hold out.new) (traffic command.now.count command.now.number)) }
    ensures cause { HasCause (K.faults out.old) (K.faults out.new) result }
    ensures only { IfErr result (λ fault. fault ≡ TopFault.WriteFault) }
{
    match make(out, command.count, command.number) {
        Ok(()) => Ok(()),
        Err(_) => Err(TopFault::WriteFault),
    }
}
