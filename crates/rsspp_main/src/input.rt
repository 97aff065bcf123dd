// The capture on a source, read as the classic one that it stands for.
ghost use Rattle.std.specs.Prelude.{◌≡◌};
ghost use Rattle.rsspp_main.specs.Listing.{with_break};
ghost use Rattle.rsspp_main.specs.Reports.{fault_behind, opening_fault};

use crate::TopFault;
use crate::serial::fault_of_run;
use pcapng_reader::{NgBreak, NgError};
use rsspp_run::RunFault;

/// The fault that an error at the beginning of an input is.
pub fn fault_of_opening(error: NgError) -> TopFault
    ensures { result ≡ opening_fault error }
{
    match error {
        NgError::NoMemory => TopFault::NoMemory,
        NgError::ReadFault => TopFault::ReadFault,
    }
}

/// The fault of a run over an input, whose blocks break so, if they do. A break behind the last record
/// is told instead of want of memory behind that record.
pub fn fault_of_run_over(fault: RunFault, broken: Option<NgBreak>) -> TopFault
    ensures { result ≡ fault_behind broken fault }
{
    match fault {
        RunFault::NoMemory => match broken {
            Some(e) => TopFault::Block(e),
            None => TopFault::NoMemory,
        },
        fault => fault_of_run(fault),
    }
}

/// The answer to a listing over such an input. A break behind the last record comes before a failed
/// write, which the listing tells at the capture's end.
pub fn answer_to_listing(
    listed: Result<(), TopFault>,
    broken: Option<NgBreak>,
) -> Result<(), TopFault>
    ensures { result ≡ with_break broken listed }
{
    match listed {
        Ok(()) | Err(TopFault::WriteFault) => match broken {
            Some(e) => Err(TopFault::Block(e)),
            None => listed,
        },
        Err(fault) => Err(fault),
    }
}
