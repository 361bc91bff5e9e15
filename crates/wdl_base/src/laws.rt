//! Laws of the definitions, which say nothing of code.

ghost use Rattle.wdl_base.specs.PlaceReading.{PlacesAreRead};

/// Places with one text are equal: `place_of` gives the one place of a text.
pub fn places_are_read()
    ensures law { PlacesAreRead }
{}
