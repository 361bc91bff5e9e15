ghost use Rattle.std.specs.Prelude.{◌≡◌, ◌≢◌, true, []};
ghost use Rattle.wdl_port.specs.Memory as spec;

use wdl_value::{Place, Segment, same_place};

/// Whether a number is among these.
pub(crate) fn is_listed(number: u64, numbers: &[u64]) -> bool
    ensures value { result ≡ spec.is_listed number numbers.now }
    ensures some { result ≡ true → numbers.now ≢ [] }
{
    for n in numbers {
        if *n == number {
            return true;
        }
    }
    false
}

/// Whether a place is among these.
pub(crate) fn has_place(place: &[Segment], places: &[Place]) -> bool
    ensures { result ≡ spec.has_place place.now places.now }
{
    for p in places {
        if same_place(p.as_slice(), place) {
            return true;
        }
    }
    false
}
