// What is done next inside a block whose front was read.
ghost use Rattle.std.specs.Prelude.{◌≡◌, ◌≤◌, ◌<◌, ◌==◌, length, if◌then◌else◌};
ghost use Rattle.pcapng_reader.specs.Looks.{Turns, IsSettled, lacking, settles};

use crate::format::{END_OF_OPTIONS, MICROSECONDS, TIME_RESOLUTION, TRAILER};
use crate::numbers::{u16_at, u32_at};
use crate::options::with_padding;
use crate::stage::{Adds, Block};
use crate::{Interface, NgBreak, NgKind};

/// What is done next inside a block.
#[derive(Clone, Copy)]
pub enum Turn {
    /// More bytes are needed.
    More,
    /// The block breaks so.
    Breaks(NgBreak),
    /// So many bytes are let go. Then this is what the block adds.
    Passes { count: usize, adds: Adds },
    /// The block is there to its end, and nothing breaks it.
    Whole,
}

// The input ends inside a block, or more of it is needed, where so many bytes of its rest are there.
fn short_or_more(number: u32, block: Block, have: usize, ended: bool) -> Turn
    requires short { have < block.rest }
    requires within { block.rest ≤ block.total }
    ensures { result ≡ lacking number block have ended }
{
    if ended {
        Turn::Breaks(NgBreak {
            block: number,
            kind: NgKind::Short,
            value: block.total - block.rest + have as u32,
        })
    } else {
        Turn::More
    }
}

// Steps over what is left of a block, and looks at the total length at its end.
fn step_over(number: u32, block: Block, ahead: &[u8], ended: bool) -> Turn
    requires settled { IsSettled block.adds }
    requires tail { 4 ≤ block.rest }
    requires within { block.rest ≤ block.total }
    ensures { Turns number block ahead.now ended result }
{
    let have = ahead.len();
    let rest = block.rest as usize;
    if have < rest {
        if ended || have < TRAILER as usize {
            return short_or_more(number, block, have, ended);
        }
        return Turn::Passes {
            count: have.min(rest - TRAILER as usize),
            adds: block.adds,
        };
    }
    let tail = u32_at(block.order, ahead, rest - TRAILER as usize);
    if tail != block.total {
        return Turn::Breaks(NgBreak {
            block: number,
            kind: NgKind::Tail,
            value: tail,
        });
    }
    Turn::Whole
}

// The interface's time resolution is known, and its other options are stepped over.
fn described(link: u16, snap: u32, resolution: u8) -> Turn
    ensures { result ≡ settles link snap resolution }
{
    Turn::Passes {
        count: 0,
        adds: Adds::Described(Interface {
            link,
            snap,
            resolution,
        }),
    }
}

// The time resolution that an option of this size tells, whose first byte this is.
fn told_by(size: u16, first: u8) -> u8
    ensures { result ≡ (if size == 1 then first else 6) }
{
    if size == 1 { first } else { MICROSECONDS }
}

// Reads the next option of an interface.
fn next_option(number: u32, block: Block, link: u16, snap: u32, ahead: &[u8], ended: bool) -> Turn
    requires options { block.adds ≡ Adds.Options link snap }
    requires tail { 4 ≤ block.rest }
    requires within { block.rest ≤ block.total }
    ensures { Turns number block ahead.now ended result }
{
    if block.rest < 8 {
        return described(link, snap, MICROSECONDS);
    }
    if ahead.len() < 8 {
        return short_or_more(number, block, ahead.len(), ended);
    }
    let code = u16_at(block.order, ahead, 0);
    let size = u16_at(block.order, ahead, 2);
    let length = 4 + with_padding(u32::from(size)) as usize;
    if code == END_OF_OPTIONS || length > (block.rest - TRAILER) as usize {
        return described(link, snap, MICROSECONDS);
    }
    if code == TIME_RESOLUTION {
        return described(link, snap, told_by(size, ahead[4]));
    }
    if ahead.len() < length {
        return short_or_more(number, block, ahead.len(), ended);
    }
    Turn::Passes {
        count: length,
        adds: block.adds,
    }
}

/// What is done next inside block `number`, by the bytes that were read ahead. Behind them the input
/// ends, or may go on.
pub fn next_turn(number: u32, block: Block, ahead: &[u8], ended: bool) -> Turn
    requires tail { 4 ≤ block.rest }
    requires within { block.rest ≤ block.total }
    ensures { Turns number block ahead.now ended result }
{
    match block.adds {
        Adds::Options { link, snap } => next_option(number, block, link, snap, ahead, ended),
        _ => step_over(number, block, ahead, ended),
    }
}
