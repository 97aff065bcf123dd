// What the process adds to a run: words that can't be read, and output that is handed on late.
ghost use Rattle.std.specs.Prelude.{◌≡◌, ◌≢◌, ◌⊎◌, Some, IsOk, IsErr};
ghost use Rattle.std.specs.declared.io.ErrorKind.TheVariants.{InvalidData};
ghost use Rattle.rsspp_main.specs.Notes.{Says, line_of};
ghost use Rattle.rsspp_main.specs.Status.{status_of};

use crate::TopFault;
use crate::notes::fault_line;
use command_words::WordFault;
use rss_base::{Failed, Sink};
use std::io::ErrorKind;

/// The fault of a run that couldn't begin: words that aren't UTF-8 are refused, and else memory was.
pub fn fault_of_start(kind: ErrorKind) -> TopFault
    ensures words { kind ≡ InvalidData → result ≡ TopFault.Words WordFault.Words }
    ensures memory { kind ≢ InvalidData → result ≡ TopFault.NoMemory }
{
    if kind == ErrorKind::InvalidData {
        TopFault::Words(WordFault::Words)
    } else {
        TopFault::NoMemory
    }
}

/// Ends a run with a fault: writes its line, and answers its status.
pub fn end_with<F: Sink>(fault: &TopFault, notes: &mut F) -> u8
    ensures status { result ≡ status_of (Some fault.now) }
    ensures notes { Says (F.faults notes.old) (F.faults notes.new) (F.may_hold notes.old) (F.may_hold notes.new) (line_of fault.now) }
{
    let _ = fault_line(fault, notes);
    fault.status()
}

/// The status of a run whose output was handed on behind it: where that failed, a run that was done
/// ends with a write fault.
pub fn status_behind<F: Sink>(status: u8, handed: Result<(), Failed>, notes: &mut F) -> u8
    ensures kept { IsOk handed ⊎ (status ≢ 0) → (result ≡ status) × (notes.new ≡ notes.old) }
    ensures late { IsErr handed → status ≡ 0 → (result ≡ status_of (Some TopFault.WriteFault))
        × Says (F.faults notes.old) (F.faults notes.new) (F.may_hold notes.old) (F.may_hold notes.new) (line_of TopFault.WriteFault) }
{
    if handed.is_ok() || status != 0 {
        return status;
    }
    end_with(&TopFault::WriteFault, notes)
}
