//! Boolean, Int, String and File values read from JSON, and undefined ones.

ghost use Rattle.std.specs.Prelude.{◌≡◌, IfOk, if◌then◌else◌, Some, None, []};
ghost use Rattle.serde_json.specs.View.{number_view};
ghost use Rattle.wdl_value.specs.declared.value.Value.TheVariants as v;
ghost use Rattle.wdl_value.specs.declared.ty.Ty.{out-Ty};
ghost use Rattle.json_values.specs.Reading as spec;

use crate::key::plain_text;
use serde_json::Number;
use sqlite_items::Items;
use std::alloc::Global;
use wdl_base::NoMemory;
use wdl_value::{Ty, Value, bare_type, is_optional};

/// `null` at a type.
pub fn null_value(t: &Ty) -> Option<Value>
    ensures { result ≡ spec.null_read t.now }
{
    if is_optional(t) || matches!(bare_type(t), Ty::Absent) {
        Some(Value::Absent)
    } else {
        None
    }
}

/// A Boolean at a type without question marks.
pub fn bool_value(b: bool, kind: &Ty) -> Option<Value>
    ensures { result ≡ spec.bool_read b (out-Ty kind.now) }
{
    match kind {
        Ty::Bool => Some(Value::Bool(b)),
        _ => None,
    }
}

/// A number at a type without question marks.
pub fn number_value(n: &Number, kind: &Ty) -> Option<Value>
    ensures { result ≡ spec.number_read (number_view n.now) (out-Ty kind.now) }
{
    match kind {
        Ty::Int => Some(Value::Int(n.as_i64()?)),
        _ => None,
    }
}

/// A text at a type without question marks.
pub fn text_value(alloc: Global, s: &str, kind: &Ty) -> Result<Option<Value>, NoMemory>
    ensures { IfOk result (λ o. o ≡ spec.string_read s.now (out-Ty kind.now)) }
{
    match kind {
        Ty::Str => Ok(plain_text(alloc, s)?.map(Value::Str)),
        Ty::File => Ok(plain_text(alloc, s)?.map(Value::File)),
        _ => Ok(None),
    }
}

/// A member of a struct that is left out, at its type.
pub fn left_out(t: &Ty) -> Option<Value>
    ensures { result ≡ spec.left_out t.now }
{
    if is_optional(t) {
        Some(Value::Absent)
    } else {
        None
    }
}

/// The list without items, which no array with `+` is.
pub fn empty_list(alloc: Global, some: bool) -> Result<Option<Value>, NoMemory>
    ensures { IfOk result (λ o. o ≡ (if some then None else Some (v.List []))) }
{
    if some {
        return Ok(None);
    }
    Ok(Some(Value::List(Items::new(alloc))))
}
