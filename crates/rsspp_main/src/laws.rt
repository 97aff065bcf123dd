// What a pcapng input is to a reader of classic captures.
ghost use Rattle.std.specs.Prelude.{◌≡◌, ℕ, List, Option, Some, true};
ghost use Rattle.pcap_reader.specs.declared.fault.Break.{Break};
ghost use Rattle.pcap_reader.specs.Capture.{Captured, IsCapture};
ghost use Rattle.pcapng_reader.specs.Classic.{classic_of, is_pcapng};
ghost use Rattle.pcapng_reader.specs.Lent.{classic_known};
ghost use Rattle.rsspp_main.specs.Packets.{AreBytes, packets_of};
ghost use Rattle.rsspp_main.specs.declared.fault.TopFault.TheVariants.{Capture};
ghost use Rattle.rsspp_main.specs.Stops.{Accepts, StopsIn};

/// The classic bytes that a pcapng input stands for are a whole capture, whose records are the
/// packets of the input's blocks up to the first break, in their order. So a run that accepts such an
/// input has read these packets, and no run over one stops at a break of the classic form: what may
/// break is a block.
pub fn pcapng_inputs_are_captures()
    ensures whole { (bytes : List ℕ) → AreBytes bytes → is_pcapng bytes ≡ true → IsCapture (classic_of bytes) (packets_of bytes) }
    ensures accepted { (limit : ℕ) (bytes : List ℕ) (records : List Captured) →
        AreBytes bytes → is_pcapng bytes ≡ true → Accepts limit (classic_known (Some bytes)) records → records ≡ packets_of bytes }
    ensures unbroken { (limit : ℕ) (bytes : List ℕ) (now : Option (List ℕ)) (records : List Captured) (e : Break) →
        is_pcapng bytes ≡ true → StopsIn limit (Some bytes) now records (Capture e) → ⊥ }
{}
