// What generated traffic is to a reader of captures.
ghost use Rattle.std.specs.Prelude.{ℕ, ◌≤◌};
ghost use Rattle.pcap_reader.specs.Capture.{IsCapture};
ghost use Rattle.traffic_gen.specs.Capture.{captured_from};
ghost use Rattle.traffic_gen.specs.Traffic.{traffic};

use crate::layout::MOST_RECORDS;

/// The traffic is a whole capture without a break, and its records are those of the packets in
/// their order.
pub fn good_capture()
    ensures { (count number : ℕ) → count ≤ MOST_RECORDS → IsCapture (traffic count number) (captured_from number 0 count) }
{}
