// The top call.
ghost use Rattle.std.specs.Prelude.{◌≡◌, ◌<◌, ◌≤◌, ◌⊎◌, List, ℕ, Option, None, Some, Ok, Err, IsSome, IsTrue, map, MatchResult};
ghost use Rattle.std.specs.String.{string_bytes};
ghost use Rattle.rss_base.specs.Faults.{NoneFailed};
ghost use Rattle.pcapng_reader.specs.Classic.{classic_of, break_of};
ghost use Rattle.pcapng_reader.specs.Lent.{classic_known};
ghost use Rattle.pcapng_reader.specs.declared.fault.NgBreak.{NgBreak};
ghost use Rattle.pcap_reader.specs.StreamEnd.{Whole, Broken, TooMany, EndsStream};
ghost use Rattle.pcap_reader.specs.declared.fault.Break.{Break};
ghost use Rattle.balancer.specs.PlanForm.{Instance, instance_of};
ghost use Rattle.command_words.specs.Ranges.{IsAcceptedCommand};
ghost use Rattle.command_words.specs.Reading.{command_of};
ghost use Rattle.command_words.specs.Refusals.{is_refused};
ghost use Rattle.command_words.specs.declared.command.Command.{Command};
ghost use Rattle.command_words.specs.declared.mode.Mode.TheVariants.{Demo, Make, Plan};
ghost use Rattle.command_words.specs.declared.word_fault.WordFault.{WordFault};
ghost use Rattle.rsspp_main.specs.Answers.{Answers, Does, HasNumbers, MakesTables, NamesRun, NamesRunOf, ReadsCapture, fault_of_word};
ghost use Rattle.rsspp_main.specs.Notes.{Says, note_of};
ghost use Rattle.traffic_gen.specs.Traffic.{traffic};
ghost use Rattle.dispatch_loop.specs.Accepted.{IsAccepted};
ghost use Rattle.dispatch_loop.specs.Past.{AreNamed};
ghost use Rattle.rsspp_main.specs.Demo.{ExplainsDemo};
ghost use Rattle.rsspp_main.specs.Run.{ends, ends_at, Explains, report_by};
ghost use Rattle.rsspp_main.specs.Threads.{WritesRun, IsTold, ToldOfDemo};
ghost use Rattle.rsspp_main.specs.Status.{status_of};
ghost use Rattle.rsspp_main.specs.declared.fault.TopFault.{TopFault};

use crate::demo::{serial_demo, threaded_demo};
use crate::modes::{hash_listing, make_capture, plan};
use crate::notes::fault_line;
use crate::serial::serial_report;
use crate::threaded::threaded_report;
use crate::{Answer, TopFault, Trace};
use bucket_table::FlowHashKey;
use command_words::{Command, Mode, WordFault, read_words};
use packet_fields::RunName;
use rss_base::{Gate, Sink, Source};
use std::alloc::Global;
use std::sync::Wait;
use std::thread::Threads;
use traffic_gen::MOST_RECORDS;

// The fault that a fault of the words is.
fn fault_of_words(fault: WordFault) -> TopFault
    ensures { result ≡ fault_of_word fault }
{
    match fault {
        WordFault::NoMemory => TopFault::NoMemory,
        fault => TopFault::Words(fault),
    }
}

// An answer without a trace.
fn untold(done: Result<(), TopFault>) -> Result<Option<Trace>, TopFault>
    ensures { MatchResult done (λ _. result ≡ Ok None) (λ fault. result ≡ Err fault) }
{
    match done {
        Ok(()) => Ok(None),
        Err(fault) => Err(fault),
    }
}

// A report, by the serial run under a number where the command names one, and else by a run in
// threads.
fn run_report<
    N: RunName + Send + Sync + Drop,
    S: Source,
    K: Sink,
    G: Gate + Sync,
    R: Threads + Wait + Sync,
>(
    rt: &R,
    alloc: Global,
    command: &Command,
    hashing: &FlowHashKey,
    source: &mut S,
    out: &mut K,
    gate: &G,
) -> Result<Option<Trace>, TopFault>
    requires accepted { IsAccepted command.now.options }
    requires named { AreNamed N.packets command.now.options.packets (classic_known (S.left source.old)) }
    ensures outcome { let at = ends_at S.left S.faults K.faults K.may_hold in
        let before = at source.old out.old in let now = at source.new out.new in
        let c = command.now in
        MatchResult result (λ told. Explains c.options.packets (WritesRun N.packets c c.serial told) before now None × IsTold c.serial None told)
        (λ fault. Explains c.options.packets (WritesRun N.packets c c.serial None) before now (Some fault) × IsTold c.serial (Some fault) None) }
    ensures origin { S.origin source.new ≡ S.origin source.old }
{
    match command.serial {
        Some(number) => match serial_report::<N, S, K>(
            alloc, command, hashing, number, source, out,
        ) {
            Ok(()) => Ok(None),
            Err(fault) => Err(fault),
        },
        None => match threaded_report::<N, S, K, G, R>(
            rt, alloc, command, hashing, source, out, gate,
        ) {
            Ok(run) => Ok(Some(run)),
            Err(fault) => Err(fault),
        },
    }
}

// A demo, likewise.
fn run_demo<N: RunName + Send + Sync + Drop, K: Sink, G: Gate + Sync, R: Threads + Wait + Sync>(
    rt: &R,
    alloc: Global,
    command: &Command,
    hashing: &FlowHashKey,
    out: &mut K,
    gate: &G,
) -> Result<Option<Trace>, TopFault>
    requires accepted { IsAccepted command.now.options }
    requires few { command.now.count ≤ MOST_RECORDS }
    requires named { AreNamed N.packets command.now.options.packets (Some (traffic command.now.count command.now.number)) }
    ensures outcome { (left : Option (List ℕ)) (reads : ℕ) → let before = ends left reads (K.faults out.old) (K.may_hold out.old) in
        let now = ends left reads (K.faults out.new) (K.may_hold out.new) in
        let c = command.now in
        MatchResult result (λ told. ExplainsDemo N.packets (report_by c.options.work) c before now None × IsTold c.serial None told × ToldOfDemo c told)
        (λ fault. ExplainsDemo N.packets (report_by c.options.work) c before now (Some fault) × IsTold c.serial (Some fault) None × ToldOfDemo c None) }
{
    match command.serial {
        Some(number) => match serial_demo::<N, K>(alloc, command, hashing, number, out) {
            Ok(()) => Ok(None),
            Err(fault) => Err(fault),
        },
        None => match threaded_demo::<N, K, G, R>(rt, alloc, command, hashing, out, gate) {
            Ok(run) => Ok(Some(run)),
            Err(fault) => Err(fault),
        },
    }
}

// Does what a command asks for. Answers the trace of a run in threads. A mode that makes flow tables
// isn't begun without numbers to hash by.
fn run<
    N: RunName + Send + Sync + Drop,
    S: Source,
    K: Sink,
    G: Gate + Sync,
    R: Threads + Wait + Sync,
>(
    rt: &R,
    alloc: Global,
    command: &Command,
    hashing: Option<FlowHashKey>,
    source: &mut S,
    out: &mut K,
    gate: &G,
) -> Result<Option<Trace>, TopFault>
    requires accepted { IsAcceptedCommand command.now }
    requires named { NamesRunOf N.packets command.now.mode command.now (S.left source.old) }
    ensures outcome { let at = ends_at S.left S.faults K.faults K.may_hold in
        let before = at source.old out.old in let now = at source.new out.new in
        MatchResult result (λ told. Does hashing N.packets told command.now.mode command.now before now None) (λ fault. Does hashing N.packets None command.now.mode command.now before now (Some fault)) }
    ensures origin { S.origin source.new ≡ S.origin source.old }
{
    match command.mode {
        Mode::Report => match &hashing {
            Some(hashing) => {
                run_report::<N, S, K, G, R>(rt, alloc, command, hashing, source, out, gate)
            }
            None => Err(TopFault::Undrawn),
        },
        Mode::Hash => untold(hash_listing(alloc, command, source, out)),
        Mode::Plan => untold(plan(alloc, source, out)),
        Mode::Make => untold(make_capture(command, out)),
        Mode::Demo => match &hashing {
            Some(hashing) => run_demo::<N, K, G, R>(rt, alloc, command, hashing, out, gate),
            None => Err(TopFault::Undrawn),
        },
    }
}

// Reads the words, and does what they ask for. Answers the trace of a run in threads.
fn read_and_run<
    N: RunName + Send + Sync + Drop,
    S: Source,
    K: Sink,
    G: Gate + Sync,
    R: Threads + Wait + Sync,
>(
    rt: &R,
    alloc: Global,
    words: &[String],
    hashing: Option<FlowHashKey>,
    source: &mut S,
    out: &mut K,
    gate: &G,
) -> Result<Option<Trace>, TopFault>
    requires named { NamesRun N.packets (command_of (map string_bytes words.now)) (S.left source.old) }
    ensures outcome { let at = ends_at S.left S.faults K.faults K.may_hold in
        let before = at source.old out.old in let now = at source.new out.new in
        let asked = command_of (map string_bytes words.now) in
        MatchResult result (λ told. Answers hashing N.packets told asked before now None) (λ fault. Answers hashing N.packets None asked before now (Some fault)) }
    ensures look { IsTrue (is_refused (map string_bytes words.now)) → result ≡ Err (TopFault.Words WordFault.Words) }
    ensures origin { S.origin source.new ≡ S.origin source.old }
{
    match read_words(alloc, words) {
        Ok(command) => run::<N, S, K, G, R>(rt, alloc, &command, hashing, source, out, gate),
        Err(fault) => Err(fault_of_words(fault)),
    }
}

/// Does all that the program does, and answers the status that it ends with.
///
/// `words` are those after the program's name, `hashing` are the numbers that flow tables hash by, if
/// they could be drawn, `source` is the capture or the plan text, `out` gets the output, and `notes`
/// one line where the status isn't 0. Without numbers `report` and `demo` end as with a failed read,
/// and nothing is read or written; no other clause speaks of them. `report` and `demo` run in
/// threads, and each worker passes the gate before each packet (which no clause says); with
/// `--serial` they run on the caller's thread, under its number. With `--serial`, and with the other
/// modes, the call returns; of a run in threads that isn't claimed.
pub fn rsspp<
    N: RunName + Send + Sync + Drop,
    S: Source,
    K: Sink,
    F: Sink,
    G: Gate + Sync,
    R: Threads + Wait + Sync,
>(
    rt: &R,
    alloc: Global,
    words: &[String],
    hashing: Option<FlowHashKey>,
    source: &mut S,
    out: &mut K,
    notes: &mut F,
    gate: &G,
) -> Answer
    // A run may be named: its packets are those of the capture that the words ask to run over.
    requires named { NamesRun N.packets (command_of (map string_bytes words.now)) (S.left source.old) }

    // The status is that of one outcome, the notes get the line of that outcome, and the outcome
    // tells what was read and written, whatever calls failed. With status 0 of a report the source
    // had a whole capture left and was read to its end, and the output got exactly the report of
    // its packets, where they are named; where the words ask for the journal, that of the run
    // stands behind it. Of a run in threads the trace tells that very journal and its custody, with
    // what closing told of the lanes and the shelf: each bucket's table has one history.
    ensures outcome { let at = ends_at S.left S.faults K.faults K.may_hold in
        let before = at source.old out.old in let now = at source.new out.new in
        (fault : Option TopFault) × (result.status ≡ status_of fault)
        × Answers hashing N.packets result.trace (command_of (map string_bytes words.now)) before now fault
        × Says (F.faults notes.old) (F.faults notes.new) (F.may_hold notes.old) (F.may_hold notes.new) (note_of fault) }

    // Status 2 comes only where the words are refused, and there unless memory runs out.
    ensures words { result.status ≡ 2 → (e : WordFault) × (command_of (map string_bytes words.now) ≡ Err e) }
    ensures refused { (e : WordFault) → command_of (map string_bytes words.now) ≡ Err e → (result.status ≡ 2) ⊎ (result.status ≡ 6) }

    // It comes wherever the look refuses the words, since that takes no memory.
    ensures look { IsTrue (is_refused (map string_bytes words.now)) → result.status ≡ 2 }

    // Without numbers to hash by, a mode that makes flow tables ends as with a failed read, unless
    // memory runs out over the words.
    ensures undrawn { (c : Command) → command_of (map string_bytes words.now) ≡ Ok c → MakesTables c.mode → hashing ≡ None
        → (result.status ≡ 4) ⊎ (result.status ≡ 6) }

    // A whole capture is reported or listed where no call fails, unless memory runs out. Of a pcapng
    // capture that is the classic one that it stands for, and no block may break.
    ensures done { (c : Command) (bytes : List ℕ) → command_of (map string_bytes words.now) ≡ Ok c → ReadsCapture c.mode → HasNumbers hashing c.mode
        → S.left source.old ≡ Some bytes → EndsStream c.options.packets (classic_of bytes) Whole → break_of bytes ≡ None
        → NoneFailed (S.faults source.old) (S.faults source.new) → NoneFailed (K.faults out.old) (K.faults out.new)
        → (result.status ≡ 0) ⊎ (result.status ≡ 6) }

    // A broken capture is refused where no read fails, unless memory runs out.
    ensures broken { (c : Command) (bytes : List ℕ) (e : Break) → command_of (map string_bytes words.now) ≡ Ok c → ReadsCapture c.mode → HasNumbers hashing c.mode
        → S.left source.old ≡ Some bytes → EndsStream c.options.packets (classic_of bytes) (Broken e)
        → NoneFailed (S.faults source.old) (S.faults source.new)
        → (result.status ≡ 3) ⊎ (result.status ≡ 6) }

    // So is one of which a block breaks behind no more records than the limit.
    ensures block { (c : Command) (bytes : List ℕ) (e : NgBreak) → command_of (map string_bytes words.now) ≡ Ok c → ReadsCapture c.mode → HasNumbers hashing c.mode
        → S.left source.old ≡ Some bytes → EndsStream c.options.packets (classic_of bytes) Whole → break_of bytes ≡ Some e
        → NoneFailed (S.faults source.old) (S.faults source.new)
        → (result.status ≡ 3) ⊎ (result.status ≡ 6) }

    // And so is one of more packets than the limit.
    ensures too_many { (c : Command) (bytes : List ℕ) → command_of (map string_bytes words.now) ≡ Ok c → ReadsCapture c.mode → HasNumbers hashing c.mode
        → S.left source.old ≡ Some bytes → EndsStream c.options.packets (classic_of bytes) TooMany
        → NoneFailed (S.faults source.old) (S.faults source.new)
        → (result.status ≡ 7) ⊎ (result.status ≡ 6) }

    // A plan text that spells an instance is planned where no call fails, unless memory runs out.
    ensures planned { (c : Command) (bytes : List ℕ) (p : Instance) → command_of (map string_bytes words.now) ≡ Ok c → c.mode ≡ Plan
        → S.left source.old ≡ Some bytes → instance_of bytes ≡ Ok p
        → NoneFailed (S.faults source.old) (S.faults source.new) → NoneFailed (K.faults out.old) (K.faults out.new)
        → (result.status ≡ 0) ⊎ (result.status ≡ 6) }

    // One with a bad line is refused where no read fails, unless memory runs out.
    ensures bad_line { (c : Command) (bytes : List ℕ) (line : ℕ) → command_of (map string_bytes words.now) ≡ Ok c → c.mode ≡ Plan
        → S.left source.old ≡ Some bytes → instance_of bytes ≡ Err line
        → NoneFailed (S.faults source.old) (S.faults source.new)
        → (result.status ≡ 3) ⊎ (result.status ≡ 6) }

    // Traffic is made where no write fails, unless memory runs out over the words.
    ensures made { (c : Command) → command_of (map string_bytes words.now) ≡ Ok c → c.mode ≡ Make
        → NoneFailed (K.faults out.old) (K.faults out.new) → (result.status ≡ 0) ⊎ (result.status ≡ 6) }

    // A demo is done where no write fails and its packets are no more than the limit, unless memory
    // runs out, and else it is refused.
    ensures shown { (c : Command) → command_of (map string_bytes words.now) ≡ Ok c → c.mode ≡ Demo → IsSome hashing → c.count ≤ c.options.packets
        → NoneFailed (K.faults out.old) (K.faults out.new) → (result.status ≡ 0) ⊎ (result.status ≡ 6) }
    ensures too_long { (c : Command) → command_of (map string_bytes words.now) ≡ Ok c → c.mode ≡ Demo → IsSome hashing → c.options.packets < c.count
        → (result.status ≡ 7) ⊎ (result.status ≡ 6) }

    ensures origin { S.origin source.new ≡ S.origin source.old }
{
    match read_and_run::<N, S, K, G, R>(rt, alloc, words, hashing, source, out, gate) {
        Ok(trace) => Answer { status: 0, trace },
        Err(fault) => {
            let _ = fault_line(&fault, notes);
            Answer {
                status: fault.status(),
                trace: None,
            }
        }
    }
}
