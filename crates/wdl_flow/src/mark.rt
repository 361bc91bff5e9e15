//! Numbers that stand for places in an index: what is equal has one number, and what differs mostly
//! has different ones.

ghost use Rattle.std.specs.Prelude.{◌≡◌};
ghost use Rattle.wdl_flow.specs.Marks as spec;

use wdl_value::Segment;

/// A prime below 2^43, so that a mark times the factor and one more number fits 64 bits.
const MODULUS: u64 = 8_796_093_022_151;

/// The mark with one more number.
#[tactic(auto, unfolding(crate::specs::Marks::mixed))]
fn mixed(mark: u64, n: u32) -> u64
    ensures { result ≡ spec.mixed mark n }
{
    mark % MODULUS * 1_000_003 + n as u64
}

fn mark_from(mark: u64, bytes: &[u8]) -> u64
    ensures { result ≡ spec.mark_from mark bytes.now }
{
    let mut total = mark;
    for byte in bytes {
        total = mixed(total, *byte as u32);
    }
    total
}

fn segment_mark(mark: u64, segment: &Segment) -> u64
    ensures { result ≡ spec.segment_mark mark segment.now }
{
    match segment {
        Segment::Call(name) => mark_from(mixed(mark, 256), name.as_str().as_bytes()),
        Segment::Scatter(k) => mixed(mixed(mark, 257), *k),
        Segment::If(k) => mixed(mixed(mark, 258), *k),
        Segment::Index(i) => mixed(mixed(mark, 259), *i),
    }
}

/// The mark of a place with an attempt.
pub fn place_mark(place: &[Segment], attempt: u32) -> u64
    ensures { result ≡ spec.place_mark attempt place.now }
{
    let mut total = attempt as u64;
    for segment in place {
        total = segment_mark(total, segment);
    }
    total
}
