//! Laws of the definitions, which say nothing of code.

ghost use Rattle.library_laws.specs.Laws.{OneCircle, OneStruct, UnlikeAreApart};

/// Documents have one import at most at which 202 is answered: the first that leads to a document
/// which is being read.
pub fn circles()
    ensures { OneCircle }
{}

/// Two struct sections of a library are one struct exactly where some relation relates them under
/// which related sections are of one name and have the same members in order, with types that are
/// equal up to the relation. The premise is that members name structs which their documents see; a
/// check answers 329 for the others. Where 204 is answered, no such relation relates the two
/// sections.
pub fn identity()
    ensures one { OneStruct }
    ensures apart { UnlikeAreApart }
{}
