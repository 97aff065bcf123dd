// The numbers that decide which flow a packet is of.
ghost use Rattle.std.specs.Prelude.{◌≡◌, ◌<◌, ◌^◌, ◌≤◌};
ghost use Rattle.traffic_gen.specs.Draw.{next_number, draw, flow_of};

/// The factor of a step of the generator (Numerical Recipes in C, second edition, section 7.1).
pub const MULTIPLIER: u64 = 1_664_525;

/// The addend of a step of the generator (Numerical Recipes in C, second edition, section 7.1).
pub const INCREMENT: u64 = 1_013_904_223;

/// What sets the starts of neighbouring packets apart: a prime near 2^32 divided by the golden ratio
/// (Knuth, The Art of Computer Programming, volume 3, section 6.4).
pub const SPREAD: u64 = 2_654_435_761;

/// How many flows a packet may be of where its number is in the lower half of the range.
pub const LARGE_FLOWS: u32 = 4;

/// How many others it may be of in the upper half.
pub const SMALL_FLOWS: u32 = 1020;

// One step of the generator.
fn next_number(x: u32) -> u32
    ensures { result ≡ next_number x }
{
    ((MULTIPLIER * u64::from(x) + INCREMENT) % (1 << 32)) as u32
}

// The number that is drawn for a packet.
#[tactic(auto, unfolding(crate::specs::Draw::draw))]
fn draw(number: u32, index: u32) -> u32
    ensures { result ≡ draw number index }
{
    let start = (u64::from(number) + SPREAD * u64::from(index)) % (1 << 32);
    next_number(next_number(start as u32))
}

/// The flow of a packet, a number below 1,024.
#[tactic(auto, unfolding(crate::specs::Draw::flow_of))]
pub fn flow_of(number: u32, index: u32) -> u16
    ensures flow { result ≡ flow_of number index }
    ensures few { result < 1024 }
{
    let high = draw(number, index) >> 16;
    let flow = if high < 0x8000 {
        high % LARGE_FLOWS
    } else {
        LARGE_FLOWS + high % SMALL_FLOWS
    };
    flow as u16
}
