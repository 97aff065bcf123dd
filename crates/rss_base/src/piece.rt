ghost use Rattle.std.specs.Prelude.{◌≡◌, ◌<◌, OnOk, OnErr};
ghost use Rattle.std.specs.List.{flat_map};
ghost use Rattle.rss_base.specs.Faults.{HasCause};
ghost use Rattle.rss_base.specs.Written.{Gets, GetsFront};
ghost use Rattle.rss_base.specs.Piece.{piece_text};
ghost use Rattle.rss_base.specs.Hex.{hex_digit, hex_text};

use crate::{Failed, Sink, write_whole};
use itoa::Buffer;

/// A part of a line.
#[derive(Clone, Copy)]
pub enum Piece<'a> {
    /// Bytes as they are.
    Bytes(&'a [u8]),
    /// A number in decimal digits, without leading zeros.
    Number(u64),
    /// A byte as two lower-case hexadecimal digits.
    Hex2(u8),
    /// A number as eight lower-case hexadecimal digits.
    Hex8(u32),
}

// The lower-case hexadecimal digit of a number below 16.
fn hex_digit(value: u32) -> u8
    requires { value < 16 }
    ensures { result ≡ hex_digit value }
{
    if value < 10 {
        b'0' + value as u8
    } else {
        b'a' + (value - 10) as u8
    }
}

/// The two hexadecimal digits of a byte.
pub fn hex2(value: u8) -> [u8; 2]
    ensures { result ≡ hex_text 2 value }
{
    let value = u32::from(value);
    [hex_digit(value / 0x10 % 16), hex_digit(value % 16)]
}

/// The four hexadecimal digits of a number.
pub fn hex4(value: u16) -> [u8; 4]
    ensures { result ≡ hex_text 4 value }
{
    let value = u32::from(value);
    [
        hex_digit(value / 0x1000 % 16),
        hex_digit(value / 0x100 % 16),
        hex_digit(value / 0x10 % 16),
        hex_digit(value % 16),
    ]
}

/// The eight hexadecimal digits of a number.
pub fn hex8(value: u32) -> [u8; 8]
    ensures { result ≡ hex_text 8 value }
{
    [
        hex_digit(value / 0x1000_0000 % 16),
        hex_digit(value / 0x100_0000 % 16),
        hex_digit(value / 0x10_0000 % 16),
        hex_digit(value / 0x1_0000 % 16),
        hex_digit(value / 0x1000 % 16),
        hex_digit(value / 0x100 % 16),
        hex_digit(value / 0x10 % 16),
        hex_digit(value % 16),
    ]
}

// Writes one piece.
fn write_piece<K: Sink>(sink: &mut K, piece: &Piece<'_>) -> Result<(), Failed>
    ensures ok { OnOk result (Gets (K.may_hold sink.old) (K.may_hold sink.new) (piece_text piece.now)) }
    ensures err { OnErr result (GetsFront (K.may_hold sink.old) (K.may_hold sink.new) (piece_text piece.now)) }
    ensures cause { HasCause (K.faults sink.old) (K.faults sink.new) result }
{
    match piece {
        Piece::Bytes(bytes) => write_whole(sink, bytes),
        Piece::Number(value) => {
            let mut buffer = Buffer::new();
            write_whole(sink, buffer.format(*value).as_bytes())
        }
        Piece::Hex2(value) => write_whole(sink, &hex2(*value)),
        Piece::Hex8(value) => write_whole(sink, &hex8(*value)),
    }
}

/// Writes all pieces, one behind the other, and takes no memory. After [`Failed`] a front of
/// them was written.
pub fn write_pieces<K: Sink>(sink: &mut K, pieces: &[Piece<'_>]) -> Result<(), Failed>
    ensures ok { OnOk result (Gets (K.may_hold sink.old) (K.may_hold sink.new) (flat_map piece_text pieces.now)) }
    ensures err { OnErr result (GetsFront (K.may_hold sink.old) (K.may_hold sink.new) (flat_map piece_text pieces.now)) }
    ensures cause { HasCause (K.faults sink.old) (K.faults sink.new) result }
{
    for piece in pieces {
        match write_piece(sink, piece) {
            Ok(()) => {}
            Err(failed) => return Err(failed),
        }
    }
    Ok(())
}
