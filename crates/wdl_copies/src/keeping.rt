//! Values that go where they are kept. Each call is the last of a function, so that no tree is
//! owned beside a `?`.

ghost use Rattle.std.specs.Prelude.{◌≡◌, ◌++◌, ◌∷◌, [], IfOk, OnOk};

use sqlite_items::{Boxed, Items};
use std::alloc::Global;
use wdl_value::NoMemory;

/// Puts an item behind the others.
pub fn put<T: Drop>(items: &mut Items<T>, item: T) -> Result<(), NoMemory>
    ensures { OnOk result (items.new ≡ items.old ++ item ∷ []) }
{
    items.push(item)?;
    Ok(())
}

/// The value in a box.
pub fn boxed<T: Drop>(alloc: Global, value: T) -> Result<Boxed<T>, NoMemory>
    ensures { IfOk result (λ b. b ≡ value) }
{
    Ok(Boxed::new(alloc, value)?)
}
