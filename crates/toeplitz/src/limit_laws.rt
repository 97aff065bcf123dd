// The numbers of the hash.
ghost use Rattle.std.specs.Prelude.{◌≡◌};
ghost use Rattle.byteorder.specs.Endian.{big_bytes};

use crate::{DEFAULT_KEY, KEY_BYTES, MOST_INPUT};

/// A key has 40 bytes and an input at most 36, which are 32 bits fewer. The default key is the one
/// that the Microsoft RSS definition gives for verification, here as one number.
pub fn keys_are_stated()
    ensures bytes { KEY_BYTES ≡ 40 }
    ensures input { MOST_INPUT ≡ 36 }
    ensures default { DEFAULT_KEY.0 ≡ big_bytes 40
        0x6d5a56da255b0ec24167253d43a38fb0d0ca2bcbae7b30b477cb2da38030f20c6a42b73bbeac01fa }
{}
