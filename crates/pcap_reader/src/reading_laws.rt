// Laws of the calls of a reader, one after the other.
ghost use Rattle.std.specs.Prelude.{ℕ, List, Option, None, Some, Ok, Err};
ghost use Rattle.std.specs.Io.KnownBytes.{IsAtEnd};
ghost use Rattle.pcap_reader.specs.declared.fault.Break.{Break};
ghost use Rattle.pcap_reader.specs.declared.fault.ReadError.TheVariants.{Broken, ReadFault};
ghost use Rattle.pcap_reader.specs.Capture.{Captured, Breaks, IsCapture, Reads};
ghost use Rattle.pcap_reader.specs.Reading.{Reading, Proceeds};
ghost use Rattle.pcap_reader.specs.Taken.{BeginsWith, Gives, HasStarted, TakesNoMore, TakesOnly};

/// The records that a reader gives, call by call, are the first whole records of its source's
/// bytes, whatever calls fail later. A failed read comes behind all whole records of what was read;
/// a break is the first break behind the records, and an end is the end of a whole capture.
pub fn records_in_order()
    ensures given { (bytes : List ℕ) (first last : Reading) (left now : Option (List ℕ)) (records : List Captured) →
        HasStarted bytes first left → Gives records first last left now → BeginsWith bytes records }
    ensures failed { (bytes : List ℕ) (first mid last : Reading) (left between now : Option (List ℕ)) (records : List Captured) →
        HasStarted bytes first left → Gives records first mid left between → Proceeds mid last between now (Err ReadFault) →
        TakesOnly (Some bytes) now records }
    ensures broken { (bytes : List ℕ) (first mid last : Reading) (left between now : Option (List ℕ)) (records : List Captured) (e : Break) →
        HasStarted bytes first left → Gives records first mid left between → Proceeds mid last between now (Err (Broken e)) →
        Reads bytes records (Breaks e) × TakesNoMore (Some bytes) now records }
    ensures ended { (bytes : List ℕ) (first mid last : Reading) (left between now : Option (List ℕ)) (records : List Captured) →
        HasStarted bytes first left → Gives records first mid left between → Proceeds mid last between now (Ok None) →
        IsCapture bytes records × IsAtEnd now }
{}
