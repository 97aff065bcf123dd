ghost use Rattle.std.specs.Prelude.{◌≡◌, Some};
ghost use Rattle.rsspp_main.specs.Status.{status_of};

use command_words::WordFault;
use pcap_reader::Break;
use pcapng_reader::NgBreak;

/// Why a run wasn't done.
#[derive(Clone, Copy, Debug, PartialEq, Eq)]
pub enum TopFault {
    /// The words were refused.
    Words(WordFault),
    /// The capture breaks so.
    Capture(Break),
    /// This block of a pcapng capture is its first that breaks.
    Block(NgBreak),
    /// This line of the plan text, counted from 1, is its first bad one.
    Line { line: u32 },
    /// The source failed to read.
    ReadFault,
    /// The random numbers that flow tables hash by could not be drawn.
    Undrawn,
    /// The output failed to be written.
    WriteFault,
    /// Memory was refused.
    NoMemory,
    /// The capture has more packets than the limit.
    TooMany { limit: u32 },
}

impl TopFault {
    /// The status that the program ends with: 2 for words, 3 for a capture or a plan text, 4
    /// for a failed read, also that of random numbers, 5 for a failed write, 6 for memory, 7 for too
    /// many packets.
    pub fn status(&self) -> u8
        ensures { result ≡ status_of (Some self.now) }
    {
        match *self {
            TopFault::Words(_) => 2,
            TopFault::Capture(_) => 3,
            TopFault::Block(_) => 3,
            TopFault::Line { line: _ } => 3,
            TopFault::ReadFault => 4,
            TopFault::Undrawn => 4,
            TopFault::WriteFault => 5,
            TopFault::NoMemory => 6,
            TopFault::TooMany { limit: _ } => 7,
        }
    }
}
