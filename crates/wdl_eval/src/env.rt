ghost use Rattle.std.specs.Prelude.{◌≡◌};
ghost use Rattle.std.specs.Option.{option_copied};
ghost use Rattle.wdl_typed.specs.Scope as spec;

use wdl_value::{Bind, Key, Name, Value};

fn same_second(a: &Option<Name>, b: &Option<Name>) -> bool
    ensures { result ≡ spec.same_second a.now b.now }
{
    match (a, b) {
        (None, None) => true,
        (Some(a), Some(b)) => a.same(b),
        _ => false,
    }
}

fn same_key(a: &Key, b: &Key) -> bool
    ensures { result ≡ spec.same_key a.now b.now }
{
    a.first.same(&b.first) && same_second(&a.second, &b.second)
}

/// The value of the first name of that key. It takes no memory, and its time is linear in the
/// number of names.
pub fn lookup<'a>(env: &'a [Bind], key: &Key) -> Option<&'a Value>
    ensures value { option_copied result ≡ spec.lookup env.now key.now }
{
    for bind in env {
        if same_key(&bind.key, key) {
            return Some(&bind.value);
        }
    }
    None
}
