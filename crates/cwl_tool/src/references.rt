ghost use Rattle.std.specs.Prelude.{◌≡◌};
ghost use Rattle.std.specs.Option.{option_copied};
ghost use Rattle.cwl_image.specs.Image as image;

use wdl_typed::TExpr;
use wdl_value::Key;

/// What an expression refers to, casts aside.
pub fn reference(expr: &TExpr) -> Option<&Key>
    ensures { option_copied result ≡ image.reference expr.now }
{
    match expr {
        TExpr::Get(key) => Some(key),
        TExpr::Cast(inner, _) => reference(inner.get()),
        _ => None,
    }
}
