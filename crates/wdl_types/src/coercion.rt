ghost use Rattle.std.specs.Prelude.{◌≡◌};
ghost use Rattle.wdl_value.specs.Coerces as spec;

use wdl_value::{Ty, bare_type};

/// Whether a value of type `t` is taken where one of type `u` is asked for, by a cast (OpenWDL 1.1,
/// "Type Coercion"). It takes no memory.
pub fn coerces(t: &Ty, u: &Ty) -> bool
    ensures value { result ≡ spec.coerces t.now u.now }
{
    match t {
        Ty::Opt(s) => match u {
            Ty::Opt(v) => coerces(s.get(), v.get()),
            _ => false,
        },
        Ty::Absent => matches!(u, Ty::Opt(_) | Ty::Absent),
        Ty::Empty => true,
        Ty::Bool => matches!(bare_type(u), Ty::Bool | Ty::Str),
        Ty::Int => matches!(bare_type(u), Ty::Int | Ty::Str),
        Ty::Str | Ty::File => matches!(bare_type(u), Ty::Str | Ty::File),
        Ty::Array { item, .. } => match bare_type(u) {
            Ty::Array { item: v, .. } => coerces(item.get(), v.get()),
            _ => false,
        },
        Ty::Map { key, value } => match bare_type(u) {
            Ty::Map { key: v, value: w } => {
                coerces(key.get(), v.get()) && coerces(value.get(), w.get())
            }
            _ => false,
        },
        Ty::Pair { left, right } => match bare_type(u) {
            Ty::Pair { left: v, right: w } => {
                coerces(left.get(), v.get()) && coerces(right.get(), w.get())
            }
            _ => false,
        },
        Ty::Struct(name) => match bare_type(u) {
            Ty::Struct(declared) => name.same(declared),
            _ => false,
        },
    }
}
