// The hash, bucket and core of each packet, a line as it comes.
ghost use Rattle.std.specs.Prelude.{◌≡◌, ◌<◌, ℕ, List, [], true, false, length, Option, None, Some, Ok, Err, OnOk, OnErr, IfOk, IfErr, MatchResult};
ghost use Rattle.rss_base.specs.Faults.{Rose};
ghost use Rattle.rss_base.specs.Written.{Gets};
ghost use Rattle.rsspp_main.specs.Listing.{hash_line, listing, classic_outcomes, IsListed, Lists};
ghost use Rattle.rsspp_main.specs.Run.{ends};
ghost use Rattle.rsspp_main.specs.Stops.{top_fault};

use crate::TopFault;
use dispatch_loop::next_packet;
use indirection::Table;
use packet_fields::{PacketInfo, key_text};
use pcap_reader::{ReadError, Reader};
use rss_base::{NoMemory, Piece, Sink, Source, Text, write_whole};
use std::alloc::Global;
use toeplitz::KeyTables;

// The fault that an error of the reader is.
fn fault_of(error: ReadError) -> TopFault
    ensures { result ≡ top_fault error }
{
    match error {
        ReadError::NoMemory => TopFault::NoMemory,
        ReadError::ReadFault => TopFault::ReadFault,
        ReadError::Broken(e) => TopFault::Capture(e),
    }
}

// What is taken for a line before the first read. The text keeps it, and a line that needs more
// takes more as it comes.
const ROOM_FOR_A_LINE: [u8; 160] = [b' '; 160];

// A text that has taken the memory for a line.
fn line_text(alloc: Global) -> Result<Text, NoMemory> {
    let mut text = Text::new(alloc);
    text.push_bytes(&ROOM_FOR_A_LINE)?;
    Ok(text)
}

// Makes the line of a packet.
fn put_line(
    number: u32,
    key: &KeyTables,
    spread: &Table,
    packet: &PacketInfo,
    text: &mut Text,
) -> Result<(), NoMemory>
    ensures { OnOk result (text.new ≡ hash_line key.now spread.now.owners number packet.now) }
{
    let hash = key.hash_info(packet);
    let bucket = spread.bucket(hash);
    let core = spread.owner(bucket);
    text.clear();
    text.push_all(&[
        Piece::Number(u64::from(number)),
        Piece::Bytes(b" "),
        Piece::Hex8(hash),
        Piece::Bytes(b" "),
        Piece::Number(u64::from(bucket)),
        Piece::Bytes(b" "),
        Piece::Number(u64::from(core)),
        Piece::Bytes(b" "),
    ])?;
    key_text(&packet.key, text)?;
    text.push_bytes(b"\n")
}

// Writes the line of a packet, unless a write failed before. Answers whether one has failed now.
fn list_packet<K: Sink>(
    failed: bool,
    number: u32,
    key: &KeyTables,
    spread: &Table,
    packet: &PacketInfo,
    text: &mut Text,
    out: &mut K,
) -> Result<bool, NoMemory>
    ensures skipped { failed ≡ true → (result ≡ Ok true) × (out.new ≡ out.old) }
    ensures listed { failed ≡ false → IfOk result (λ now. IsListed (K.faults out.old) (K.faults out.new) (K.may_hold out.old) (K.may_hold out.new) now
        (hash_line key.now spread.now.owners number packet.now)) }
    ensures err { OnErr result (out.new ≡ out.old) }
{
    if failed {
        return Ok(true);
    }
    put_line(number, key, spread, packet, text)?;
    match write_whole(out, text.bytes()) {
        Ok(()) => Ok(false),
        Err(_) => Ok(true),
    }
}

// The answer of a listing whose capture was read to its end.
fn ended(failed: bool) -> Result<(), TopFault>
    ensures failed { failed ≡ true → result ≡ Err TopFault.WriteFault }
    ensures done { failed ≡ false → result ≡ Ok tt }
{
    if failed {
        Err(TopFault::WriteFault)
    } else {
        Ok(())
    }
}

/// Reads a whole classic capture, and writes a line for each packet as it comes: its number, hash, bucket
/// and core, and the text of its key. After a failed write nothing more is written, and the
/// capture is read to its end all the same, so that what is wrong with it is told first.
pub fn list_hashes<S: Source, K: Sink>(
    alloc: Global,
    limit: u32,
    key: &KeyTables,
    spread: &Table,
    source: &mut S,
    out: &mut K,
) -> Result<(), TopFault>
    ensures outcome { (left rest : Option (List ℕ)) → let before = ends left (S.faults source.old) (K.faults out.old) (K.may_hold out.old) in
        let now = ends rest (S.faults source.new) (K.faults out.new) (K.may_hold out.new) in
        let begun = (source.new ≡ source.old) × (out.new ≡ out.old) in
        let lists = Lists (classic_outcomes limit (S.left source.old) (S.left source.new) begun) (listing key.now spread.now.owners) before now in
        MatchResult result (λ _. lists None) (λ fault. lists (Some fault)) }
    ensures origin { S.origin source.new ≡ S.origin source.old }
{
    let mut text = match line_text(alloc) {
        Ok(text) => text,
        Err(_) => return Err(TopFault::NoMemory),
    };
    let mut reader = match Reader::start(alloc, source) {
        Ok(reader) => reader,
        Err(error) => return Err(fault_of(error)),
    };
    let mut failed = false;
    'packets: for number in 0..limit {
        match next_packet(&mut reader, source) {
            Ok(Some(packet)) => {
                match list_packet(failed, number, key, spread, &packet, &mut text, out) {
                    Ok(now) => failed = now,
                    Err(_) => return Err(TopFault::NoMemory),
                }
            }
            Ok(None) => return ended(failed),
            Err(error) => return Err(fault_of(error)),
        }
    }
    match next_packet(&mut reader, source) {
        Ok(Some(_)) => Err(TopFault::TooMany { limit }),
        Ok(None) => ended(failed),
        Err(error) => Err(fault_of(error)),
    }
}
