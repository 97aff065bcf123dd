// The text of a round.
ghost use Rattle.std.specs.Prelude.{◌≡◌, ◌≤◌, ◌++◌, ◌^◌, length, All, OnOk};
ghost use Rattle.std.specs.List.{flat_map};
ghost use Rattle.std.specs.Fmt.{decimal};
ghost use Rattle.balancer.specs.PlanText.{move_line, loads_line, imbalance_line, spaced_number};

use crate::weigh::imbalance;
use indirection::Proposal;
use itoa::Buffer;
use rss_base::{NoMemory, Piece, Text};

// Appends a number in decimal digits.
fn push_wide(value: u128, text: &mut Text) -> Result<(), NoMemory>
    ensures { OnOk result (text.new ≡ text.old ++ decimal value) }
{
    let mut buffer = Buffer::new();
    text.push_bytes(buffer.format(value).as_bytes())
}

// Appends the line of a proposal.
fn put_move(p: &Proposal, text: &mut Text) -> Result<(), NoMemory>
    ensures { OnOk result (text.new ≡ text.old ++ move_line p.now) }
{
    text.push_all(&[
        Piece::Bytes(b"move "),
        Piece::Number(u64::from(p.bucket)),
        Piece::Bytes(b" "),
        Piece::Number(u64::from(p.from)),
        Piece::Bytes(b" "),
        Piece::Number(u64::from(p.to)),
        Piece::Bytes(b" gain "),
    ])?;
    push_wide(p.gain, text)?;
    text.push_bytes(b"\n")
}

/// Appends the lines of proposals.
pub fn put_moves(proposals: &[Proposal], text: &mut Text) -> Result<(), NoMemory>
    ensures { OnOk result (text.new ≡ text.old ++ flat_map move_line proposals.now) }
{
    for proposal in proposals {
        put_move(proposal, text)?;
    }
    Ok(())
}

// Appends numbers, each behind a space.
fn put_numbers(numbers: &[u64], text: &mut Text) -> Result<(), NoMemory>
    ensures { OnOk result (text.new ≡ text.old ++ flat_map spaced_number numbers.now) }
{
    for number in numbers {
        text.push_all(&[Piece::Bytes(b" "), Piece::Number(*number)])?;
    }
    Ok(())
}

/// Appends what the cores carry, and how uneven that is.
pub fn put_loads(carried: &[u64], text: &mut Text) -> Result<(), NoMemory>
    requires few { length carried.now ≤ 64 }
    requires small { All (λ l. l ≤ 2 ^ 52) carried.now }
    ensures { OnOk result (text.new ≡ text.old ++ (loads_line carried.now ++ imbalance_line carried.now)) }
{
    text.push_bytes(b"loads")?;
    put_numbers(carried, text)?;
    text.push_bytes(b"\nimbalance ")?;
    push_wide(imbalance(carried), text)?;
    text.push_bytes(b"\n")
}
