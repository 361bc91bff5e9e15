ghost use Rattle.std.specs.Prelude.{◌≡◌};
ghost use Rattle.wdl_value.specs.Bare as spec;
ghost use Rattle.wdl_value.specs.declared.ty.Ty.{out-Ty};

use crate::ty::Ty;

/// The type without its question marks. It takes no memory.
pub fn bare_type(t: &Ty) -> &Ty
    ensures { result.now ≡ spec.bare t.now }
{
    match t {
        Ty::Opt(inner) => bare_type(inner.get()),
        _ => t,
    }
}

/// Whether the type has a question mark. It takes no memory.
pub fn is_optional(t: &Ty) -> bool
    ensures { result ≡ spec.is_optional (out-Ty t.now) }
{
    matches!(t, Ty::Opt(_))
}
