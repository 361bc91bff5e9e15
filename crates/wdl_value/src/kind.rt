//! Tests of types. None takes memory.

ghost use Rattle.std.specs.Prelude.{◌≡◌};
ghost use Rattle.wdl_value.specs.FunctionTypes as table;
ghost use Rattle.wdl_value.specs.Kinds as spec;

use crate::ty::Ty;

/// Whether the type is Boolean.
pub fn is_bool(t: &Ty) -> bool
    ensures { result ≡ spec.is_bool t.now }
{
    matches!(t, Ty::Bool)
}

/// Whether the type is Int.
pub fn is_int(t: &Ty) -> bool
    ensures { result ≡ spec.is_int t.now }
{
    matches!(t, Ty::Int)
}

/// Whether the type is String.
pub fn is_str(t: &Ty) -> bool
    ensures { result ≡ spec.is_str t.now }
{
    matches!(t, Ty::Str)
}

/// Whether the type is that of `None` alone.
pub fn is_absent(t: &Ty) -> bool
    ensures { result ≡ spec.is_absent t.now }
{
    matches!(t, Ty::Absent)
}

/// Whether the type is that of the items of `[]`.
pub fn is_empty(t: &Ty) -> bool
    ensures { result ≡ spec.is_empty t.now }
{
    matches!(t, Ty::Empty)
}

/// Whether the type is String or File.
pub fn is_text(t: &Ty) -> bool
    ensures { result ≡ spec.is_text t.now }
{
    matches!(t, Ty::Str | Ty::File)
}

/// Whether the type is Boolean, Int, String or File.
pub fn is_scalar(t: &Ty) -> bool
    ensures { result ≡ spec.is_scalar t.now }
{
    matches!(t, Ty::Bool | Ty::Int | Ty::Str | Ty::File)
}

/// Whether a map may have keys of the type: Boolean, Int, String, File, or the type of the items
/// of `[]`.
pub fn is_plain(t: &Ty) -> bool
    ensures { result ≡ table.is_plain t.now }
{
    is_scalar(t) || is_empty(t)
}
