ghost use Rattle.std.specs.Prelude.{◌≡◌, ℕ, List, map};
ghost use Rattle.std.specs.List.{AllByRecursion};
ghost use Rattle.serde_json.specs.Data.{string};
ghost use Rattle.serde_json.specs.View.{view, items_of, items_view};
ghost use Rattle.wdl_base.specs.declared.body.Laid.{Laid as LaidOf};
ghost use Rattle.wdl_base.specs.declared.body.Seen.{Seen as SeenOf};
ghost use Rattle.wdl_base.specs.declared.request.Attribute.{Attribute as AttributeOf};
ghost use Rattle.run_keeper.specs.Entries.{IsText, IsSeen, IsLaid, IsAttribute};
ghost use Rattle.run_keeper.specs.Reads.{Gives, Recovers};
ghost use Rattle.run_keeper.specs.RowText.{list_data, seen_data, laid_data, attribute_data};

use crate::error::RowFault;
use crate::row_value::{attribute_of, laid_of, seen_of, text_of};
use serde_json::Value;
use sqlite_items::Items;
use std::alloc::Global;
use wdl_value::{Attribute, Laid, Seen, Text};

fn seen_items(alloc: Global, values: &[Value]) -> Result<Items<Seen>, RowFault>
    ensures { (xs : List SeenOf) → AllByRecursion IsSeen xs → items_view values.now ≡ items_of (map seen_data xs) → Gives result xs }
{
    let mut all = Items::new(alloc);
    for value in values {
        all.push(seen_of(alloc, value)?)?;
    }
    Ok(all)
}

fn laid_items(alloc: Global, values: &[Value]) -> Result<Items<Laid>, RowFault>
    ensures { (xs : List LaidOf) → AllByRecursion IsLaid xs → items_view values.now ≡ items_of (map laid_data xs) → Gives result xs }
{
    let mut all = Items::new(alloc);
    for value in values {
        all.push(laid_of(alloc, value)?)?;
    }
    Ok(all)
}

fn attribute_items(alloc: Global, values: &[Value]) -> Result<Items<Attribute>, RowFault>
    ensures { (xs : List AttributeOf) → AllByRecursion IsAttribute xs → items_view values.now ≡ items_of (map attribute_data xs) → Gives result xs }
{
    let mut all = Items::new(alloc);
    for value in values {
        all.push(attribute_of(alloc, value)?)?;
    }
    Ok(all)
}

fn text_items(alloc: Global, values: &[Value]) -> Result<Items<Text>, RowFault>
    ensures { (xs : List (List ℕ)) → AllByRecursion IsText xs → items_view values.now ≡ items_of (map string xs) → Gives result xs }
{
    let mut all = Items::new(alloc);
    for value in values {
        all.push(text_of(alloc, value)?)?;
    }
    Ok(all)
}

/// The files of an answer.
pub(crate) fn seen_list(alloc: Global, value: &Value) -> Result<Items<Seen>, RowFault>
    ensures { Recovers (list_data seen_data) (AllByRecursion IsSeen) (view value.now) result }
{
    match value.as_array() {
        Some(values) => seen_items(alloc, values.as_slice()),
        None => Err(RowFault::NotARow),
    }
}

/// The files that were laid down.
pub(crate) fn laid_list(alloc: Global, value: &Value) -> Result<Items<Laid>, RowFault>
    ensures { Recovers (list_data laid_data) (AllByRecursion IsLaid) (view value.now) result }
{
    match value.as_array() {
        Some(values) => laid_items(alloc, values.as_slice()),
        None => Err(RowFault::NotARow),
    }
}

/// The runtime attributes.
pub(crate) fn attribute_list(alloc: Global, value: &Value) -> Result<Items<Attribute>, RowFault>
    ensures { Recovers (list_data attribute_data) (AllByRecursion IsAttribute) (view value.now) result }
{
    match value.as_array() {
        Some(values) => attribute_items(alloc, values.as_slice()),
        None => Err(RowFault::NotARow),
    }
}

/// The paths of the inputs.
pub(crate) fn text_list(alloc: Global, value: &Value) -> Result<Items<Text>, RowFault>
    ensures { Recovers (list_data string) (AllByRecursion IsText) (view value.now) result }
{
    match value.as_array() {
        Some(values) => text_items(alloc, values.as_slice()),
        None => Err(RowFault::NotARow),
    }
}
