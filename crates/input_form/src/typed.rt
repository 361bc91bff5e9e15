//! Types as a document writes them.

ghost use Rattle.std.specs.Prelude.{◌≡◌, IfOk};
ghost use Rattle.input_form.specs.Types as spec;

use std::alloc::Global;
use wdl_value::{NoMemory, Text, Ty};

#[tactic(auto, using(crate::proofs::Plain::plain))]
fn array_text(alloc: Global, item: &Text, some: bool) -> Result<Text, NoMemory>
    ensures { IfOk result (λ t. t ≡ spec.array_text item.now some) }
{
    let item = item.as_str();
    if some {
        Ok(Text::from_string(format!(in alloc; "Array[{item}]+")?))
    } else {
        Ok(Text::from_string(format!(in alloc; "Array[{item}]")?))
    }
}

#[tactic(auto, using(crate::proofs::Plain::plain))]
fn map_text(alloc: Global, key: &Text, value: &Text) -> Result<Text, NoMemory>
    ensures { IfOk result (λ t. t ≡ spec.map_text key.now value.now) }
{
    let key = key.as_str();
    let value = value.as_str();
    Ok(Text::from_string(format!(in alloc; "Map[{key}, {value}]")?))
}

#[tactic(auto, using(crate::proofs::Plain::plain))]
fn pair_text(alloc: Global, left: &Text, right: &Text) -> Result<Text, NoMemory>
    ensures { IfOk result (λ t. t ≡ spec.pair_text left.now right.now) }
{
    let left = left.as_str();
    let right = right.as_str();
    Ok(Text::from_string(format!(in alloc; "Pair[{left}, {right}]")?))
}

#[tactic(auto, using(crate::proofs::Plain::plain))]
fn optional_text(alloc: Global, inner: &Text) -> Result<Text, NoMemory>
    ensures { IfOk result (λ t. t ≡ spec.optional_text inner.now) }
{
    let inner = inner.as_str();
    Ok(Text::from_string(format!(in alloc; "{inner}?")?))
}

/// Returns the type as a document writes it (OpenWDL 1.1, "Types"): `Array[Int]+`,
/// `Map[String, File]`, `Sample?`. The types of `None` and of the items of `[]`, which no document
/// writes, are `None` and `Any`.
pub fn type_text(alloc: Global, ty: &Ty) -> Result<Text, NoMemory>
    ensures value { IfOk result (λ t. t ≡ spec.type_text ty.now) }
{
    match ty {
        Ty::Bool => Text::from_plain(alloc, "Boolean"),
        Ty::Int => Text::from_plain(alloc, "Int"),
        Ty::Str => Text::from_plain(alloc, "String"),
        Ty::File => Text::from_plain(alloc, "File"),
        Ty::Array { item, some } => {
            let item = type_text(alloc, item.get())?;
            array_text(alloc, &item, *some)
        }
        Ty::Map { key, value } => {
            let key = type_text(alloc, key.get())?;
            let value = type_text(alloc, value.get())?;
            map_text(alloc, &key, &value)
        }
        Ty::Pair { left, right } => {
            let left = type_text(alloc, left.get())?;
            let right = type_text(alloc, right.get())?;
            pair_text(alloc, &left, &right)
        }
        Ty::Struct(name) => name.to_text(alloc),
        Ty::Opt(inner) => {
            let inner = type_text(alloc, inner.get())?;
            optional_text(alloc, &inner)
        }
        Ty::Absent => Text::from_plain(alloc, "None"),
        Ty::Empty => Text::from_plain(alloc, "Any"),
    }
}
