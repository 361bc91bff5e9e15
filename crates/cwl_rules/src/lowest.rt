//! The lowest of the rules that are broken.

ghost use Rattle.std.specs.Prelude.{◌≡◌};
ghost use Rattle.cwl_image.specs.Subset as subset;
ghost use Rattle.cwl_rules.specs.Lowest as spec;

use cwl_image::Broken;
use wdl_value::Span;

/// The one with the lower rule; of two with one rule the first.
pub fn lower(first: Option<Broken>, second: Option<Broken>) -> Option<Broken>
    ensures { result ≡ spec.lower first second }
{
    match (first, second) {
        (Some(a), Some(b)) => Some(if b.rule < a.rule { b } else { a }),
        (Some(a), None) => Some(a),
        (None, b) => b,
    }
}

/// The rule is broken at the place unless the test holds.
#[tactic(auto, unfolding(cwl_image::specs::Subset::unless))]
pub fn unless(holds: bool, rule: u16, span: Span) -> Option<Broken>
    ensures { result ≡ spec.lowest (subset.unless holds rule span) }
{
    if holds {
        return None;
    }
    Some(Broken { rule, span })
}
