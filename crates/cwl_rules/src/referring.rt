//! What expressions refer to.

ghost use Rattle.std.specs.Prelude.{◌≡◌};
ghost use Rattle.std.specs.Option.{option_copied};
ghost use Rattle.cwl_image.specs.Expressions as spec;
ghost use Rattle.cwl_image.specs.Image as image;

use wdl_names::NameStack;
use wdl_typed::TExpr;
use wdl_value::Key;

/// What the expression refers to, casts aside.
pub fn reference(e: &TExpr) -> Option<&Key>
    ensures { option_copied result ≡ image.reference e.now }
{
    match e {
        TExpr::Get(key) => Some(key),
        TExpr::Cast(a, _) => reference(a.get()),
        _ => None,
    }
}

/// Whether the expression is `call.output`, casts aside.
pub fn is_call_output(e: &TExpr) -> bool
    ensures { result ≡ spec.is_call_output (image.reference e.now) }
{
    match reference(e) {
        Some(key) => key.second.is_some(),
        None => false,
    }
}

/// Whether the expression is an input, a scatter item or `call.output`, casts aside: no name that
/// the body declares.
pub fn is_source(e: &TExpr, declared: &NameStack) -> bool
    ensures { result ≡ spec.is_source declared.now (image.reference e.now) }
{
    match reference(e) {
        Some(key) => key.second.is_some() || !declared.has(&key.first),
        None => false,
    }
}
