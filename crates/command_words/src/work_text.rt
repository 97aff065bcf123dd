ghost use Rattle.std.specs.Prelude.{◌≡◌};
ghost use Rattle.command_words.specs.Values.{work_in};

use flow_work::WorkName;

/// The work that this text names.
pub fn work_named(text: &str) -> Option<WorkName>
    ensures { result ≡ work_in text.now }
{
    if text == "count" {
        Some(WorkName::Count)
    } else if text == "flags" {
        Some(WorkName::TcpFlags)
    } else if text == "gaps" {
        Some(WorkName::Gaps)
    } else if text == "order" {
        Some(WorkName::OrderFold)
    } else {
        None
    }
}
