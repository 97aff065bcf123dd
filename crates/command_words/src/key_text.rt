ghost use Rattle.std.specs.Prelude.{◌≡◌, ◌≤◌, ◌*◌, length, true};
ghost use Rattle.std.specs.List.{list_all};
ghost use Rattle.command_words.specs.Values.{byte_pairs, digit_value, is_hex_digit, key_in};

use toeplitz::{KEY_BYTES, Key};

fn is_hex_digit(digit: u8) -> bool
    ensures { result ≡ is_hex_digit digit }
{
    digit.is_ascii_digit() || (b'A' <= digit && digit <= b'F') || (b'a' <= digit && digit <= b'f')
}

fn digit_value(digit: u8) -> u8
    requires { is_hex_digit digit ≡ true }
    ensures value { result ≡ digit_value digit }
    ensures most { result ≤ 15 }
{
    if digit <= b'9' {
        digit - b'0'
    } else if digit <= b'F' {
        digit - b'A' + 10
    } else {
        digit - b'a' + 10
    }
}

fn are_hex_digits(digits: &[u8]) -> bool
    ensures { result ≡ list_all is_hex_digit digits.now }
{
    digits.iter().all(|digit| is_hex_digit(*digit))
}

// The bytes of pairs of digits, the high digit first.
fn byte_pairs(digits: &[u8]) -> [u8; KEY_BYTES]
    requires len { length digits.now ≡ 2 * KEY_BYTES }
    requires hex { list_all is_hex_digit digits.now ≡ true }
    ensures { result ≡ byte_pairs digits.now }
{
    let mut key = [0u8; KEY_BYTES];
    for i in 0..KEY_BYTES {
        let high = digit_value(digits[2 * i]);
        let low = digit_value(digits[2 * i + 1]);
        key[i] = 16 * high + low;
    }
    key
}

/// The key that the text spells, two hexadecimal digits for each byte.
pub fn key_of(text: &str) -> Option<Key>
    ensures { result ≡ key_in text.now }
{
    let digits = text.as_bytes();
    if digits.len() != 2 * KEY_BYTES {
        return None;
    }
    if !are_hex_digits(digits) {
        return None;
    }
    Some(Key(byte_pairs(digits)))
}
