//! Numbers that stand for keys and calls in an index: what is equal has one number, and what
//! differs mostly has different ones.

ghost use Rattle.std.specs.Prelude.{◌≡◌};
ghost use Rattle.wdl_flow.specs.Marks as marks;
ghost use Rattle.wdl_plain.specs.SightMarks as spec;

use wdl_value::{Key, Name};

/// A prime below 2^43, so that a mark times the factor and one more number fits 64 bits.
const MODULUS: u64 = 8_796_093_022_151;

/// The mark with one more number.
#[tactic(auto, unfolding(wdl_flow::specs::Marks::mixed))]
fn mixed(mark: u64, n: u32) -> u64
    ensures { result ≡ marks.mixed mark n }
{
    mark % MODULUS * 1_000_003 + n as u64
}

fn mark_from(mark: u64, bytes: &[u8]) -> u64
    ensures { result ≡ marks.mark_from mark bytes.now }
{
    let mut total = mark;
    for byte in bytes {
        total = mixed(total, *byte as u32);
    }
    total
}

/// The mark of a name.
pub fn name_mark(name: &Name) -> u64
    ensures { result ≡ spec.name_mark name.now }
{
    mark_from(0, name.as_str().as_bytes())
}

/// The mark of a key, by whether it has a value.
pub fn key_mark(key: &Key, known: bool) -> u64
    ensures { result ≡ spec.key_mark key.now known }
{
    let mark = mixed(name_mark(&key.first), known as u32);
    match &key.second {
        Some(second) => mark_from(mixed(mark, 256), second.as_str().as_bytes()),
        None => mark,
    }
}
