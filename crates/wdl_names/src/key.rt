ghost use Rattle.std.specs.Prelude.{◌≡◌};
ghost use Rattle.wdl_typed.specs.Scope as spec;

use wdl_value::{Key, Name};

/// Whether both are the same name, or none.
fn same_second(a: &Option<Name>, b: &Option<Name>) -> bool
    ensures { result ≡ spec.same_second a.now b.now }
{
    match (a, b) {
        (None, None) => true,
        (Some(a), Some(b)) => a.same(b),
        _ => false,
    }
}

/// Whether both keys have the same names.
pub fn same_key(a: &Key, b: &Key) -> bool
    ensures { result ≡ spec.same_key a.now b.now }
{
    a.first.same(&b.first) && same_second(&a.second, &b.second)
}
