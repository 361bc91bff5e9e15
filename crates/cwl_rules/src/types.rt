//! The types of the subset, and the casts between them.

ghost use Rattle.std.specs.Prelude.{◌≡◌};
ghost use Rattle.cwl_image.specs.Expressions as spec;

use wdl_value::{Ty, bare_type};

/// Whether the type is Int, String, Boolean, File, or an array or optional of these.
pub fn is_simple(t: &Ty) -> bool
    ensures { result ≡ spec.is_simple t.now }
{
    match t {
        Ty::Bool | Ty::Int | Ty::Str | Ty::File => true,
        Ty::Array { item, .. } => is_simple(item.get()),
        Ty::Opt(inner) => is_simple(inner.get()),
        _ => false,
    }
}

/// Whether the type is Int, String, Boolean or an array of these.
pub fn takes_default(t: &Ty) -> bool
    ensures { result ≡ spec.takes_default t.now }
{
    match t {
        Ty::Bool | Ty::Int | Ty::Str => true,
        Ty::Array { item, .. } => takes_default(item.get()),
        _ => false,
    }
}

/// Whether the type is File.
pub fn is_file_type(t: &Ty) -> bool
    ensures { result ≡ spec.is_file_type t.now }
{
    matches!(t, Ty::File)
}

/// Whether a cast from the first type to the second makes T to `T?` and `Array[T]+` to `Array[T]`
/// alone, also inside arrays and optionals. It takes no memory.
#[tactic(auto, using(crate::proofs::WidensOut::widens_steps))]
pub fn widens(t: &Ty, u: &Ty) -> bool
    ensures { result ≡ spec.widens t.now u.now }
{
    match t {
        Ty::Opt(s) => match u {
            Ty::Opt(v) => widens(s.get(), v.get()),
            _ => false,
        },
        Ty::Array { item, some } => match bare_type(u) {
            Ty::Array {
                item: v,
                some: also,
            } => widens(item.get(), v.get()) && (*some || !*also),
            _ => false,
        },
        _ => t.same(bare_type(u)),
    }
}

/// The same where there is a type.
pub fn some_widens(t: &Option<Ty>, u: &Ty) -> bool
    ensures { result ≡ spec.some_widens t.now u.now }
{
    match t {
        Some(t) => widens(t, u),
        None => false,
    }
}
