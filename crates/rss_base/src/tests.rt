use crate::{
    Failed, FoldSink, MemorySink, MemorySource, Piece, Sink, Source, StdSink, StdSource, Text,
    write_pieces, write_whole,
};
use std::io::{BufWriter, Cursor};
use std::test::Fail;

#[test]
fn a_memory_source_cuts_and_fails_as_told(rt: HostRuntime) -> Result<(), Fail> {
    let alloc = rt.alloc();
    let mut source = MemorySource::new(
        b"abcdefg".to_vec(alloc)?,
        vec![in alloc; 3, 0]?,
        vec![in alloc; 2]?,
    );
    let mut piece = [0u8; 8];
    for (answer, first) in [
        (Ok(3), b'a'),
        (Err(Failed), b'a'),
        (Ok(3), b'd'),
        (Ok(1), b'g'),
        (Ok(0), b'g'),
    ] {
        assert!(rt; source.read(&mut piece) == answer);
        assert_eq!(rt; piece[0], first);
    }
    Ok(())
}

#[test]
fn a_memory_sink_takes_whole_pieces(rt: HostRuntime) -> Result<(), Fail> {
    let alloc = rt.alloc();
    let mut sink = MemorySink::new(alloc, 5, vec![in alloc; 2]?)?;
    for (piece, answer) in [
        ("ab", Ok(2)),
        ("c", Err(Failed)),
        ("cdef", Err(Failed)),
        ("cde", Ok(3)),
    ] {
        assert!(rt; sink.write(piece.as_bytes()) == answer);
    }
    assert!(rt; sink.bytes() == b"abcde".as_slice());
    Ok(())
}

// "abc" has the sum (97 * 31 + 98) * 31 + 99, and the second text's passes 32 bits.
#[test]
fn a_fold_sink_keeps_length_and_sum(rt: HostRuntime) -> Result<(), Fail> {
    let mut sink = FoldSink::new();
    assert!(rt; (sink.length(), sink.sum()) == (0, 0));
    assert!(rt; write_whole(&mut sink, b"ab").is_ok());
    assert!(rt; write_whole(&mut sink, b"c").is_ok());
    assert!(rt; (sink.length(), sink.sum()) == (3, 96_354));
    let mut other = FoldSink::new();
    assert!(rt; write_whole(&mut other, b"total flows 1").is_ok());
    assert!(rt; (other.length(), other.sum()) == (13, 3_426_348_794));
    Ok(())
}

#[test]
fn pieces_are_written_alike_to_a_sink_and_a_text(rt: HostRuntime) -> Result<(), Fail> {
    let alloc = rt.alloc();
    let pieces = [
        Piece::Bytes(b"x "),
        Piece::Number(18_446_744_073_709_551_615),
        Piece::Hex2(0x0f),
        Piece::Hex8(0xa0d_0d0a),
    ];
    let mut sink = MemorySink::new(alloc, 100, Vec::new(alloc))?;
    assert!(rt; write_pieces(&mut sink, &pieces).is_ok());
    let mut text = Text::new(alloc);
    text.push_all(&pieces)?;
    assert!(rt; text.bytes() == b"x 184467440737095516150f0a0d0d0a".as_slice());
    assert!(rt; sink.bytes() == text.bytes());
    Ok(())
}

#[test]
fn a_std_reader_is_a_source(rt: HostRuntime) -> Result<(), Fail> {
    let mut source = StdSource::new(Cursor::new(b"abc".as_slice()));
    let mut piece = [0u8; 2];
    assert!(rt; source.read(&mut piece) == Ok(2));
    assert!(rt; source.read(&mut piece) == Ok(1));
    assert!(rt; source.read(&mut piece) == Ok(0));
    assert!(rt; piece == *b"cb");
    Ok(())
}

#[test]
fn a_std_writer_is_a_sink(rt: HostRuntime) -> Result<(), Fail> {
    let mut room = [0u8; 4];
    let mut sink = StdSink::new(Cursor::new(room.as_mut_slice()));
    assert!(rt; write_whole(&mut sink, b"abc").is_ok());
    // A writer that takes nothing more of a piece has failed.
    assert!(rt; write_whole(&mut sink, b"de").is_err());
    Ok(())
}

// What a buffer holds fails to be written when it is flushed, and not before.
#[test]
fn a_failed_flush_is_told(rt: HostRuntime) -> Result<(), Fail> {
    let mut room = [0u8; 4];
    let writer = BufWriter::new(rt.alloc(), Cursor::new(room.as_mut_slice()))?;
    let mut sink = StdSink::new(writer);
    assert!(rt; write_whole(&mut sink, b"abcd").is_ok());
    assert!(rt; sink.flush() == Ok(()));
    assert!(rt; write_whole(&mut sink, b"e").is_ok());
    assert!(rt; sink.flush() == Err(Failed));
    Ok(())
}
