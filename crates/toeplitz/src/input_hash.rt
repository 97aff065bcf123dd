ghost use Rattle.std.specs.Prelude.{◌≡◌, ◌≤◌, [], ◌∷◌, length};
ghost use Rattle.byteorder.specs.Endian.{big_number};
ghost use Rattle.toeplitz.specs.Toeplitz.{toeplitz};

use crate::Key;
use byteorder::{BigEndian, ByteOrder};

/// The longest input in bytes: two addresses of 16 bytes and two ports.
pub const MOST_INPUT: usize = 36;

// The first five bytes of a key as one number, which holds the 32 bits from each bit of the first
// byte on.
fn window_of(key: &[u8]) -> u64
    requires { 5 ≤ length key.now }
    ensures { result ≡ big_number 5 key.now }
{
    u64::from(BigEndian::read_u32(key)) * 256 + u64::from(key[4])
}

// The hash of one byte.
pub(crate) fn byte_hash(key: &[u8], byte: u8) -> u32
    requires { 5 ≤ length key.now }
    ensures { result ≡ toeplitz key.now (byte ∷ []) }
{
    let window = window_of(key);
    let mut hash = 0;
    for bit in 0..8u32 {
        if byte >> (7 - bit) & 1 == 1 {
            hash ^= (window >> (8 - bit) & 0xffff_ffff) as u32;
        }
    }
    hash
}

/// The Toeplitz hash of an input (Microsoft RSS): the exclusive or, over each bit of the input that
/// is set, of the 32 bits of the key from that bit on.
pub fn hash(key: &Key, input: &[u8]) -> u32
    requires { length input.now ≤ MOST_INPUT }
    ensures { result ≡ toeplitz key.now.0 input.now }
{
    let mut hash = 0;
    for (at, byte) in input.iter().enumerate() {
        hash ^= byte_hash(&key.0[at..], *byte);
    }
    hash
}
