// Where a byte stands, and what stands before and behind it.
ghost use Rattle.std.specs.Prelude.{◌≡◌, ◌<◌, ◌+◌, ◌==◌, length, take, drop};
ghost use Rattle.std.specs.List.{position, position_or_len};

/// What ends a line.
pub const LINE_FEED: u8 = b'\n';

/// What stands between the parts of a line.
pub const SPACE: u8 = b' ';

// The place of the first such byte.
fn first_place(byte: u8, text: &[u8]) -> Option<usize>
    ensures { result ≡ position (λ x. x == byte) text.now }
{
    text.iter().position(|x| *x == byte)
}

/// The place of the first such byte, or the length of the text where there is none.
pub fn place_of(byte: u8, text: &[u8]) -> usize
    ensures { result ≡ position_or_len (λ x. x == byte) text.now }
{
    first_place(byte, text).unwrap_or(text.len())
}

/// What stands before a place, and what stands behind it.
pub fn around(place: usize, text: &[u8]) -> (&[u8], &[u8])
    requires { place < length text.now }
    ensures before { result.0.now ≡ take place text.now }
    ensures behind { result.1.now ≡ drop (place + 1) text.now }
{
    (&text[..place], &text[place + 1..])
}
