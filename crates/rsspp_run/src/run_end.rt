ghost use Rattle.std.specs.Prelude.{◌≡◌};
ghost use Rattle.rsspp_run.specs.Refused.{fault_of_error, refusal};

use bucket_table::{BucketTable, Custody};
use core_queue::LaneNote;
use dispatch_loop::DispatcherEnd;
use flow_work::FlowWork;
use handover_words::ShelfNote;
use indirection::Journal;
use pcap_reader::{Break, ReadError};
use rss_base::NoMemory;

/// Why a run has no end to tell of.
#[derive(Clone, Copy, Debug, PartialEq, Eq)]
pub enum RunFault {
    /// The capture is broken.
    Capture(Break),
    /// The source failed to read.
    ReadFault,
    /// There is a record more than the limit.
    TooMany { limit: u32 },
    /// Memory was refused.
    NoMemory,
}

impl From<NoMemory> for RunFault {
    ghost use Rattle.rsspp_run.specs.declared.run_end.RunFault.TheVariants as faults;

    ghost from_gives = { λ _ fault. fault ≡ faults.NoMemory };

    fn from(_none: NoMemory) -> RunFault {
        RunFault::NoMemory
    }
}

impl From<ReadError> for RunFault {
    ghost from_gives = { λ error fault. fault ≡ fault_of_error error };

    fn from(error: ReadError) -> RunFault {
        match error {
            ReadError::NoMemory => RunFault::NoMemory,
            ReadError::ReadFault => RunFault::ReadFault,
            ReadError::Broken(what) => RunFault::Capture(what),
        }
    }
}

/// What a run came to.
#[derive(Drop)]
pub struct RunEnd<W: FlowWork> {
    /// The table of each bucket, in the order of the buckets.
    pub tables: Vec<BucketTable<W>>,
    /// Which core worked which packets of a bucket, by bucket and then by place.
    pub custody: Vec<Custody>,
    /// What the dispatcher did.
    pub journal: Journal,
    /// How many packets each core worked.
    pub worked: Vec<u64>,
    /// What was sent to each core of a run in threads and taken there, in order of cores.
    pub notes: Vec<LaneNote>,
    /// The custodies that were ended on the shelf of a run in threads.
    pub shelf: Option<ShelfNote>,
}

/// What a run is refused with, where its stream ended so: the reader's error by its own fault, and
/// a record above the limit as `TooMany`.
pub fn refused(end: DispatcherEnd) -> Result<(), RunFault>
    ensures { result ≡ refusal end }
{
    match end {
        DispatcherEnd::AtEnd => Ok(()),
        DispatcherEnd::Refused(error) => Err(RunFault::from(error)),
        DispatcherEnd::TooMany { limit } => Err(RunFault::TooMany { limit }),
    }
}
