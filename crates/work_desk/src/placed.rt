//! What the types of places keep, for contracts: places with one text are equal.

ghost use Rattle.wdl_base.specs.PlaceReading.{IsPlace, IsSegment};

use wdl_value::{Place, Segment};

fn see_segment(segment: &Segment)
    ensures segment { IsSegment segment.now }
{
    match segment {
        Segment::Call(name) => {
            let _spelling = name.as_str();
        }
        Segment::Scatter(k) | Segment::If(k) | Segment::Index(k) => {
            let _number = *k;
        }
    }
}

/// Each of the place's names is an identifier.
pub(crate) fn see_place(place: &Place)
    ensures place { IsPlace place.now }
{
    for segment in place.as_slice() {
        see_segment(segment);
    }
}
