//! The types inside a type. None takes memory.

ghost use Rattle.std.specs.Prelude.{◌≡◌, option_map, option_and_then};
ghost use Rattle.std.specs.Option.{option_copied};
ghost use Rattle.wdl_value.specs.FunctionTypes as table;

use wdl_value::{Ty, is_plain};

/// The type of an array's items.
pub fn item_of(t: &Ty) -> Option<&Ty>
    ensures { option_copied result ≡ table.item_type t.now }
{
    match t {
        Ty::Array { item, .. } => Some(item.get()),
        Ty::Empty => Some(t),
        _ => None,
    }
}

/// The type of the items of an array of arrays.
pub fn inner_item_of(t: &Ty) -> Option<&Ty>
    ensures { option_copied result ≡ option_and_then table.item_type (table.item_type t.now) }
{
    item_of(item_of(t)?)
}

/// The type of the items of an array of plain ones.
pub fn plain_item_of(t: &Ty) -> Option<&Ty>
    ensures { option_copied result ≡ option_and_then table.plain_only (table.item_type t.now) }
{
    let item = item_of(t)?;
    if is_plain(item) {
        return Some(item);
    }
    None
}

/// The types of the keys and of the values of a map.
fn entries_of(t: &Ty) -> Option<(&Ty, &Ty)>
    ensures { option_map (λ p. (p.0.now, p.1.now)) result ≡ table.entry_types t.now }
{
    match t {
        Ty::Map { key, value } => Some((key.get(), value.get())),
        Ty::Empty => Some((t, t)),
        _ => None,
    }
}

/// The types of the keys and of the values of a map, whose keys are plain.
pub fn plain_entries_of(t: &Ty) -> Option<(&Ty, &Ty)>
    ensures { option_map (λ p. (p.0.now, p.1.now)) result
        ≡ option_and_then table.plain_first (table.entry_types t.now) }
{
    let (key, value) = entries_of(t)?;
    if is_plain(key) {
        return Some((key, value));
    }
    None
}

/// The types of the left and of the right part of a pair.
fn parts_of(t: &Ty) -> Option<(&Ty, &Ty)>
    ensures { option_map (λ p. (p.0.now, p.1.now)) result ≡ table.part_types t.now }
{
    match t {
        Ty::Pair { left, right } => Some((left.get(), right.get())),
        Ty::Empty => Some((t, t)),
        _ => None,
    }
}

/// The types of the parts of the pairs of an array.
pub fn item_parts_of(t: &Ty) -> Option<(&Ty, &Ty)>
    ensures { option_map (λ p. (p.0.now, p.1.now)) result
        ≡ option_and_then table.part_types (table.item_type t.now) }
{
    parts_of(item_of(t)?)
}

/// The same, where the left parts are plain.
pub fn plain_item_parts_of(t: &Ty) -> Option<(&Ty, &Ty)>
    ensures { option_map (λ p. (p.0.now, p.1.now)) result
        ≡ option_and_then table.plain_first
        (option_and_then table.part_types (table.item_type t.now)) }
{
    let (left, right) = item_parts_of(t)?;
    if is_plain(left) {
        return Some((left, right));
    }
    None
}
