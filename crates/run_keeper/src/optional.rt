//! The members that earlier versions of a row lack, and what stands for each of them there.
ghost use Rattle.std.specs.Prelude.{◌≡◌, ◌<◌, ◌^◌, ℕ, Bool, true, List, [], Ok, codes};
ghost use Rattle.std.specs.List.{AllByRecursion};
ghost use Rattle.serde_json.specs.Data.{boolean, string};
ghost use Rattle.serde_json.specs.Find.{get};
ghost use Rattle.serde_json.specs.View.{view};
ghost use Rattle.wdl_base.specs.declared.body.Laid.{Laid as LaidOf};
ghost use Rattle.wdl_base.specs.declared.request.Attribute.{Attribute as AttributeOf};
ghost use Rattle.run_keeper.specs.Entries.{IsText, IsLaid, IsAttribute};
ghost use Rattle.run_keeper.specs.Members.{Shows, number_data};
ghost use Rattle.run_keeper.specs.Reads.{Gives};
ghost use Rattle.run_keeper.specs.RowText.{list_data, laid_data, attribute_data};

use crate::error::RowFault;
use crate::list::{attribute_list, laid_list, text_list};
use crate::member::attempt_of;
use serde_json::Value;
use sqlite_items::Items;
use std::alloc::Global;
use wdl_value::{Attribute, Laid, Text};

/// The attempt, 0 in version 1.
pub(crate) fn attempt_in(row: &Value) -> Result<u32, RowFault>
    ensures { (n : ℕ) → n < 2 ^ 32 → Shows number_data 0 (get (codes "attempt") (view row.now)) n → result ≡ Ok n }
{
    match row.get("attempt") {
        Some(value) => attempt_of(value),
        None => Ok(0),
    }
}

/// The files that were laid down, none in version 1.
pub(crate) fn laid_in(alloc: Global, row: &Value) -> Result<Items<Laid>, RowFault>
    ensures { (xs : List LaidOf) → AllByRecursion IsLaid xs → Shows (list_data laid_data) [] (get (codes "laid") (view row.now)) xs → Gives result xs }
{
    match row.get("laid") {
        Some(value) => laid_list(alloc, value),
        None => Ok(Items::new(alloc)),
    }
}

/// The runtime attributes, none before version 3.
pub(crate) fn attributes_in(alloc: Global, row: &Value) -> Result<Items<Attribute>, RowFault>
    ensures { (xs : List AttributeOf) → AllByRecursion IsAttribute xs → Shows (list_data attribute_data) [] (get (codes "attributes") (view row.now)) xs → Gives result xs }
{
    match row.get("attributes") {
        Some(value) => attribute_list(alloc, value),
        None => Ok(Items::new(alloc)),
    }
}

/// The paths of the inputs, none before version 3.
pub(crate) fn inputs_in(alloc: Global, row: &Value) -> Result<Items<Text>, RowFault>
    ensures { (xs : List (List ℕ)) → AllByRecursion IsText xs → Shows (list_data string) [] (get (codes "inputs") (view row.now)) xs → Gives result xs }
{
    match row.get("inputs") {
        Some(value) => text_list(alloc, value),
        None => Ok(Items::new(alloc)),
    }
}

fn flag_of(value: &Value) -> Result<bool, RowFault>
    ensures { (b : Bool) → view value.now ≡ boolean b → result ≡ Ok b }
{
    match value.as_bool() {
        Some(flag) => Ok(flag),
        None => Err(RowFault::NotARow),
    }
}

/// Whether the outputs read what the command left: before version 3 they may.
pub(crate) fn reads_in(row: &Value) -> Result<bool, RowFault>
    ensures { (b : Bool) → Shows boolean true (get (codes "reads") (view row.now)) b → result ≡ Ok b }
{
    match row.get("reads") {
        Some(value) => flag_of(value),
        None => Ok(true),
    }
}
