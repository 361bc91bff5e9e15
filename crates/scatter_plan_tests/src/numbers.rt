//! Numbers that look random.

ghost use Rattle.std.specs.Prelude.{◌<◌};

/// The next number of a row of numbers.
pub fn next(seed: u64) -> u64
    ensures below { result < 4_294_967_296 }
{
    (seed % 4_294_967_296 * 1_664_525 + 1_013_904_223) % 4_294_967_296
}

/// A number for a text and a seed.
pub fn number_of(text: &str, seed: u64) -> u64 {
    let mut number = seed;
    for byte in text.bytes() {
        number = next(number % 4_294_967_296 + byte as u64);
    }
    next(number) % 65_521
}

/// The order of answers of that number: its digits, to the base of how many may arrive, tell which
/// arrives. Any 120 numbers in a row give each order of five.
pub fn order_of(number: u64) -> u64 {
    number.wrapping_mul(1_000_000_007)
}
