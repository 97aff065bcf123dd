// The next line of a source.
ghost use Rattle.std.specs.Prelude.{◌≡◌, IfOk};
ghost use Rattle.std.specs.Io.KnownBytes.{prepend_known};
ghost use Rattle.rss_base.specs.Faults.{HasCause};
ghost use Rattle.balancer.specs.NextLine.{ComesNext};

use crate::number::LONGEST_LINE;
use crate::place::{LINE_FEED, place_of};
use crate::window::{Window, fill_line};
use rss_base::{Failed, Source};

/// What comes next in a text.
#[derive(Clone, Copy)]
pub enum NextLine {
    /// A line of so many bytes, which stand at the front of the window. With its line feed, if it
    /// has one, it uses `used` bytes.
    Line { length: usize, used: usize },
    /// A line with more bytes than a line may have.
    TooLong,
    /// No line.
    End,
}

/// Looks for the next line, and leaves its bytes in the window.
pub fn next_line<S: Source>(window: &mut Window, source: &mut S) -> Result<NextLine, Failed>
    ensures comes { IfOk result (λ next. ComesNext (prepend_known window.old (S.left source.old)) window.new (S.left source.new) next) }
    ensures cause { HasCause (S.faults source.old) (S.faults source.new) result }
    ensures origin { S.origin source.new ≡ S.origin source.old }
{
    fill_line(window, source)?;
    let bytes = window.bytes();
    let length = place_of(LINE_FEED, bytes);
    if length < bytes.len() {
        return Ok(NextLine::Line {
            length,
            used: length + 1,
        });
    }
    if length > LONGEST_LINE {
        return Ok(NextLine::TooLong);
    }
    if length == 0 {
        return Ok(NextLine::End);
    }
    Ok(NextLine::Line {
        length,
        used: length,
    })
}
