ghost use Rattle.std.specs.Prelude.{◌≡◌, ◌+◌, ◌≤◌, ◌<◌, ◌^◌, length};
ghost use Rattle.bucket_table.specs.FlowHash as hash;

use std::hash::Hasher;

/// The sum of a start and of the words that were written, each times a factor of its own.
#[derive(Clone, Copy)]
pub struct FlowHasher {
    pub(crate) factors: [u128; 8],
    pub(crate) sum: u128,
    /// Which factor is next.
    pub(crate) place: usize,
}

// Bytes as a number, the lowest first.
pub(crate) fn number_of(bytes: &[u8]) -> u128
    requires { length bytes.now ≤ 16 }
    ensures value { result ≡ hash.number_of bytes.now }
    ensures bound { result < 256 ^ length bytes.now }
{
    match bytes.split_first() {
        Some((first, rest)) => u128::from(*first) + 256 * number_of(rest),
        None => 0,
    }
}

impl FlowHasher {
    ghost use Rattle.bucket_table.specs.FlowHash.{with_word};

    // Adds a word times the next factor, modulo 2^128.
    #[inline(always)]
    fn write_word(&mut self, word: u64)
        ensures { self.new ≡ with_word self.old word }
    {
        let place = self.place % 8;
        let product = self.factors[place].wrapping_mul(u128::from(word));
        self.sum = self.sum.wrapping_add(product);
        self.place = place + 1;
    }
}

impl Hasher for FlowHasher {
    ghost write = { hash.write };

    ghost finish = { hash.finish };

    #[inline(always)]
    fn finish(&self) -> u64 {
        (self.sum >> 64) as u64
    }

    fn write(&mut self, bytes: &[u8]) {
        let mut rest = bytes;
        while !rest.is_empty() {
            let (word, more) = rest.split_at(rest.len().min(8));
            self.write_word(number_of(word) as u64);
            rest = more;
        }
    }

    #[inline(always)]
    fn write_u8(&mut self, i: u8) {
        self.write_word(u64::from(i));
    }

    #[inline(always)]
    fn write_u16(&mut self, i: u16) {
        self.write_word(u64::from(i));
    }

    #[inline(always)]
    fn write_usize(&mut self, i: usize) {
        self.write_word(i as u64);
    }

    #[inline(always)]
    fn write_u128(&mut self, i: u128) {
        self.write_word((i & 0xFFFF_FFFF_FFFF_FFFF) as u64);
        self.write_word((i >> 64) as u64);
    }
}
