// The line of a fault.
ghost use Rattle.std.specs.Prelude.{◌≡◌, OnOk, OnErr};
ghost use Rattle.rss_base.specs.Faults.{HasCause};
ghost use Rattle.rss_base.specs.Written.{Gets, GetsFront};
ghost use Rattle.rsspp_main.specs.Notes.{line_of, break_line, block_line, kind_text, word_line};

use crate::TopFault;
use command_words::WordFault;
use pcap_reader::Break;
use pcapng_reader::{NgBreak, NgKind};
use rss_base::{Failed, Piece, Sink, write_pieces};

// Writes the line of a capture that is refused.
fn write_break<F: Sink>(e: Break, notes: &mut F) -> Result<(), Failed>
    ensures ok { OnOk result (Gets (F.may_hold notes.old) (F.may_hold notes.new) (break_line e)) }
    ensures err { OnErr result (GetsFront (F.may_hold notes.old) (F.may_hold notes.new) (break_line e)) }
    ensures cause { HasCause (F.faults notes.old) (F.faults notes.new) result }
{
    match e {
        Break::ShortHeader { have } => write_pieces(
            notes,
            &[
                Piece::Bytes(b"rsspp: capture refused: header ends after "),
                Piece::Number(u64::from(have)),
                Piece::Bytes(b" bytes\n"),
            ],
        ),
        Break::BadMagic { value } => write_pieces(
            notes,
            &[
                Piece::Bytes(b"rsspp: capture refused: magic "),
                Piece::Hex8(value),
                Piece::Bytes(b"\n"),
            ],
        ),
        Break::BadVersion { major, minor } => write_pieces(
            notes,
            &[
                Piece::Bytes(b"rsspp: capture refused: version "),
                Piece::Number(u64::from(major)),
                Piece::Bytes(b"."),
                Piece::Number(u64::from(minor)),
                Piece::Bytes(b"\n"),
            ],
        ),
        Break::BadLink { value } => write_pieces(
            notes,
            &[
                Piece::Bytes(b"rsspp: capture refused: link "),
                Piece::Number(u64::from(value)),
                Piece::Bytes(b"\n"),
            ],
        ),
        Break::TooLong { at, length } => write_pieces(
            notes,
            &[
                Piece::Bytes(b"rsspp: capture refused: record "),
                Piece::Number(u64::from(at)),
                Piece::Bytes(b" has length "),
                Piece::Number(u64::from(length)),
                Piece::Bytes(b"\n"),
            ],
        ),
        Break::ShortRecord { at, have } => write_pieces(
            notes,
            &[
                Piece::Bytes(b"rsspp: capture refused: record "),
                Piece::Number(u64::from(at)),
                Piece::Bytes(b" ends after "),
                Piece::Number(u64::from(have)),
                Piece::Bytes(b" bytes\n"),
            ],
        ),
    }
}

// The word of what is wrong with a block.
fn kind_word(kind: NgKind) -> &'static str
    ensures { result.now ≡ kind_text kind }
{
    match kind {
        NgKind::Short => "short",
        NgKind::Order => "order",
        NgKind::Length => "length",
        NgKind::Version => "version",
        NgKind::Interface => "interface",
        NgKind::Link => "link",
        NgKind::Long => "long",
        NgKind::Tail => "tail",
        NgKind::Interfaces => "interfaces",
        NgKind::Blocks => "blocks",
    }
}

// Writes the line of a pcapng capture that is refused.
fn write_block<F: Sink>(e: NgBreak, notes: &mut F) -> Result<(), Failed>
    ensures ok { OnOk result (Gets (F.may_hold notes.old) (F.may_hold notes.new) (block_line e)) }
    ensures err { OnErr result (GetsFront (F.may_hold notes.old) (F.may_hold notes.new) (block_line e)) }
    ensures cause { HasCause (F.faults notes.old) (F.faults notes.new) result }
{
    write_pieces(
        notes,
        &[
            Piece::Bytes(b"rsspp: capture refused: block "),
            Piece::Number(u64::from(e.block)),
            Piece::Bytes(b" "),
            Piece::Bytes(kind_word(e.kind).as_bytes()),
            Piece::Bytes(b" "),
            Piece::Number(u64::from(e.value)),
            Piece::Bytes(b"\n"),
        ],
    )
}

// Writes the line of words that are refused.
fn write_word_fault<F: Sink>(fault: WordFault, notes: &mut F) -> Result<(), Failed>
    ensures ok { OnOk result (Gets (F.may_hold notes.old) (F.may_hold notes.new) (word_line fault)) }
    ensures err { OnErr result (GetsFront (F.may_hold notes.old) (F.may_hold notes.new) (word_line fault)) }
    ensures cause { HasCause (F.faults notes.old) (F.faults notes.new) result }
{
    match fault {
        WordFault::NoMemory => write_pieces(notes, &[Piece::Bytes(b"rsspp: want of memory\n")]),
        WordFault::Words => write_pieces(notes, &[Piece::Bytes(b"rsspp: words refused\n")]),
        WordFault::Mode => write_pieces(notes, &[Piece::Bytes(b"rsspp: bad mode\n")]),
        WordFault::Values => write_pieces(notes, &[Piece::Bytes(b"rsspp: bad values\n")]),
        WordFault::Option { which } => write_pieces(
            notes,
            &[
                Piece::Bytes(b"rsspp: bad option "),
                Piece::Bytes(which.word().as_bytes()),
                Piece::Bytes(b"\n"),
            ],
        ),
    }
}

/// Writes the line of a fault, and takes no memory.
pub fn fault_line<F: Sink>(fault: &TopFault, notes: &mut F) -> Result<(), Failed>
    ensures ok { OnOk result (Gets (F.may_hold notes.old) (F.may_hold notes.new) (line_of fault.now)) }
    ensures err { OnErr result (GetsFront (F.may_hold notes.old) (F.may_hold notes.new) (line_of fault.now)) }
    ensures cause { HasCause (F.faults notes.old) (F.faults notes.new) result }
{
    match *fault {
        TopFault::Words(fault) => write_word_fault(fault, notes),
        TopFault::Capture(e) => write_break(e, notes),
        TopFault::Block(e) => write_block(e, notes),
        TopFault::Line { line } => write_pieces(
            notes,
            &[
                Piece::Bytes(b"rsspp: plan refused: line "),
                Piece::Number(u64::from(line)),
                Piece::Bytes(b"\n"),
            ],
        ),
        TopFault::ReadFault => write_pieces(notes, &[Piece::Bytes(b"rsspp: read fault\n")]),
        TopFault::Undrawn => write_pieces(notes, &[Piece::Bytes(b"rsspp: read fault\n")]),
        TopFault::WriteFault => write_pieces(notes, &[Piece::Bytes(b"rsspp: write fault\n")]),
        TopFault::NoMemory => write_pieces(notes, &[Piece::Bytes(b"rsspp: want of memory\n")]),
        TopFault::TooMany { limit } => write_pieces(
            notes,
            &[
                Piece::Bytes(b"rsspp: more than "),
                Piece::Number(u64::from(limit)),
                Piece::Bytes(b" packets\n"),
            ],
        ),
    }
}
