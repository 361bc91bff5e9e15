//! Places below others.

ghost use Rattle.std.specs.Prelude.{◌≡◌, ◌++◌, ◌∷◌, [], IfOk};

use std::alloc::Global;
use wdl_value::{NoMemory, Place, Segment, copy_place};

/// The place of a segment below a place.
pub fn place_below(alloc: Global, place: &Place, segment: Segment) -> Result<Place, NoMemory>
    ensures { IfOk result (λ p. p ≡ place.now ++ segment ∷ []) }
{
    let mut below = copy_place(alloc, place)?;
    below.push(segment)?;
    Ok(below)
}
