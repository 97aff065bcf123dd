// Laws of the options, of a capture's packets, and of a dispatcher's turns.
ghost use Rattle.std.specs.Prelude.{◌≡◌, ℕ, List, Option, Some, false};
ghost use Rattle.packet_fields.specs.declared.packet.PacketInfo.{PacketInfo};
ghost use Rattle.pcap_reader.specs.Reading.{Reading};
ghost use Rattle.core_queue.specs.declared.history.LaneHistory.{LaneHistory};
ghost use Rattle.handover_words.specs.declared.history.ShelfHistory.{ShelfHistory};
ghost use Rattle.load_meter.specs.declared.history.LoadHistory.{LoadHistory};
ghost use Rattle.dispatch_loop.specs.declared.dispatcher_end.DispatcherEnd.TheVariants.{AtEnd};
ghost use Rattle.dispatch_loop.specs.Terms.{cores_of};
ghost use Rattle.dispatch_loop.specs.DispatcherState.{DispatcherState};
ghost use Rattle.dispatch_loop.specs.Packets.{ArePackets};
ghost use Rattle.dispatch_loop.specs.Past.{Past};
ghost use Rattle.dispatch_loop.specs.DispatcherSnapshot.{DispatcherSnapshot};
ghost use Rattle.dispatch_loop.specs.Steps.{TellsOn, SendsOn};
ghost use Rattle.dispatch_loop.specs.declared.dispatcher_turn.DispatcherTurn.{DispatcherTurn};
ghost use Rattle.dispatch_loop.specs.Tied.{Tied};
ghost use Rattle.dispatch_loop.specs.Borne.{IsBorne};
ghost use Rattle.dispatch_loop.specs.Finished.{IsWhole};
ghost use Rattle.flow_work.specs.declared.work_name.WorkName.{WorkName};
ghost use Rattle.dispatch_loop.specs.Accepted.{IsAccepted};
ghost use Rattle.dispatch_loop.specs.Defaults.{default_options};
ghost use Rattle.bucket_table.specs.Table.{TableOf};

use flow_work::FlowWork;

/// The bytes of a capture and a limit have exactly one list of packets.
pub fn captures_have_one_list_of_packets()
    ensures each { (limit : ℕ) (bytes : List ℕ) → (packets : List PacketInfo) × ArePackets limit bytes packets }
    ensures one { (limit : ℕ) (bytes : List ℕ) (packets others : List PacketInfo) → ArePackets limit bytes packets → ArePackets limit bytes others → packets ≡ others }
{}

/// A dispatcher that got to the end of a whole capture and wasn't short of memory leaves a lawful
/// journal of that capture's packets, and sent each core its stream by that journal.
pub fn finished_dispatchers()
    ensures { (packets : Option (List PacketInfo)) (p : Past) (f : DispatcherState) (lanes : List LaneHistory) (shelf : ShelfHistory) (meter : LoadHistory) (reader : Reading) (left : Option (List ℕ)) → Tied packets p f lanes shelf meter reader left → f.end ≡ Some AtEnd → f.ends ≡ cores_of f.terms → f.short ≡ false → IsWhole p f lanes left }
{}

/// Behind a turn of a dispatcher the story of its run goes on with what its rule did: a round by
/// the loads that were read, a try with its outcome, a packet, or nothing.
pub fn stories_go_on_by_the_rules<W: FlowWork>()
    ensures { (packets : Option (List PacketInfo)) (turn : DispatcherTurn) (s t : DispatcherSnapshot (TableOf W.State)) → TellsOn packets turn s t }
{}

/// A dispatcher stays tied while others take from its lanes, claim and put back tables, and note
/// on the meter.
pub fn dispatchers_bear_the_workers()
    ensures { (packets : Option (List PacketInfo)) (p : Past) (f : DispatcherState) (lanes lanes' : List LaneHistory) (shelf shelf' : ShelfHistory) (meter meter' : LoadHistory) (reader : Reading) (left : Option (List ℕ)) → Tied packets p f lanes shelf meter reader left → IsBorne lanes lanes' shelf shelf' meter meter' → Tied packets p f lanes' shelf' meter' reader left }
{}

/// The packet by which a turn's list of sent packets grew is the one that its rule sent, and there
/// is none but after [`Sent`](crate::DispatcherTurn::Sent).
pub fn sent_packets_are_the_rules<W: FlowWork>()
    ensures { (packets : Option (List PacketInfo)) (turn : DispatcherTurn) (s t : DispatcherSnapshot (TableOf W.State)) → SendsOn packets turn s t }
{}

/// Each default is in its range: options for which no number, key, table or order is given are
/// accepted, for each work.
pub fn defaults_are_accepted()
    ensures { (work : WorkName) → IsAccepted (default_options work) }
{}
