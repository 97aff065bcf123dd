// A run whose packets are named.
ghost use Rattle.std.specs.Prelude.{◌≡◌, ◌++◌, ◌∷◌, [], map, drop, Some};
ghost use Rattle.std.specs.String.{string_bytes};
ghost use Rattle.flow_work.specs.declared.work_name.WorkName.TheVariants.{Count};
ghost use Rattle.traffic_gen.specs.Traffic.{traffic};
ghost use Rattle.dispatch_loop.specs.Defaults.{default_options};
ghost use Rattle.rsspp_main.specs.Run.{run_terms};
ghost use Rattle.rsspp_main.specs.declared.trace.Trace.{Trace};
ghost use Rattle.rsspp_main.specs.Named.{one_packet, one_packet_report, report_words};
ghost use Rattle.rsspp_main.specs.Threads.{IsTraceOf};

use crate::{Answer, rsspp};
use bucket_table::FlowHashKey;
use packet_fields::RunName;
use rss_base::{MemorySink, MemorySource, OpenGate};
use std::alloc::Global;
use std::sync::Wait;
use std::thread::Threads;
use traffic_gen::good_capture;

/// Names the packet of the generated capture of one record, under number 0.
#[derive(Clone, Copy, Debug)]
pub struct OnePacket;

impl RunName for OnePacket {
    ghost use Rattle.std.specs.Prelude.{Some, [], ◌∷◌};
    ghost use Rattle.rsspp_main.specs.Named.{one_packet};

    ghost packets = { Some (one_packet ∷ []) };
}

/// Reports the generated capture of one record in threads. This is [`rsspp`] where its condition on the name of a run is
/// met by a list: status 0 then tells the very bytes of the report, and the trace is one of that
/// list.
pub fn report_one_packet<R: Threads + Wait + Sync>(
    rt: &R,
    alloc: Global,
    words: &[String],
    hashing: &FlowHashKey,
    source: &mut MemorySource,
    out: &mut MemorySink,
    notes: &mut MemorySink,
) -> Answer
    requires words { map string_bytes words.now ≡ report_words }
    requires capture { drop source.old.given source.old.all ≡ traffic 1 0 }
    ensures report { result.status ≡ 0 → out.new.bytes ≡ out.old.bytes ++ one_packet_report }
    ensures trace { result.status ≡ 0 → (run : Trace) × (result.trace ≡ Some run) × IsTraceOf (run_terms (default_options Count)) (one_packet ∷ []) run }
{
    good_capture();
    rsspp::<OnePacket, _, _, _, _, _>(
        rt,
        alloc,
        words,
        Some(*hashing),
        source,
        out,
        notes,
        &OpenGate,
    )
}
