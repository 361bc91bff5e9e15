ghost use Rattle.std.specs.Prelude.{◌≡◌};
ghost use Rattle.std.specs.Option.{option_copied};
ghost use Rattle.wdl_typed.specs.Scope as scope;
ghost use Rattle.wdl_names.specs.Firsts as spec;

use crate::key::same_key;
use crate::keyed::Keyed;
use wdl_value::Key;

/// The item at a place, where it has that key.
pub(crate) fn keyed_at<'a, T: Keyed>(
    items: &'a [T],
    place: Option<usize>,
    key: &Key,
) -> Option<&'a T>
    ensures { option_copied result ≡ spec.item_at (λ x. scope.same_key (T.keyed x) key.now) items.now place }
{
    let item = items.get(place?)?;
    if same_key(item.key(), key) {
        return Some(item);
    }
    None
}
