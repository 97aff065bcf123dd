// Laws of the definition of a capture.
ghost use Rattle.std.specs.Prelude.{◌≡◌, ℕ, List};
ghost use Rattle.pcap_reader.specs.Capture.{Captured, Ending, Reads};
ghost use Rattle.pcap_reader.specs.StreamEnd.{StreamEnd, EndsStream};

/// Each list of bytes has exactly one list of whole records, and exactly one end or first break
/// behind them.
pub fn one_reading()
    ensures each { (bytes : List ℕ) → (records : List Captured) × (ending : Ending) × Reads bytes records ending }
    ensures one { (bytes : List ℕ) (records others : List Captured) (ending other : Ending) →
        Reads bytes records ending → Reads bytes others other → (records ≡ others) × (ending ≡ other) }
{}

/// Under each limit of records, the stream of each list of bytes ends in exactly one way.
pub fn one_stream_end()
    ensures each { (limit : ℕ) (bytes : List ℕ) → (end : StreamEnd) × EndsStream limit bytes end }
    ensures one { (limit : ℕ) (bytes : List ℕ) (end other : StreamEnd) →
        EndsStream limit bytes end → EndsStream limit bytes other → end ≡ other }
{}
