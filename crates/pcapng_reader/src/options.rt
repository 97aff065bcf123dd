// The options of an interface.
ghost use Rattle.std.specs.Prelude.{◌≡◌};
ghost use Rattle.pcapng_reader.specs.Options.{padded};

/// A length with its padding to a multiple of four.
pub fn with_padding(length: u32) -> u64
    ensures { result ≡ padded length }
{
    (u64::from(length) + 3) / 4 * 4
}
