//! Values read from JSON, by their types.

ghost use Rattle.std.specs.Prelude.{◌≡◌, IfOk};
ghost use Rattle.serde_json.specs.View.{view, items_view, members_view};
ghost use Rattle.wdl_value.specs.declared.ty.Ty.{out-Ty};
ghost use Rattle.json_values.specs.Reading as spec;

use crate::declared::are_declared;
use crate::key::key_value;
use crate::scalar::{bool_value, empty_list, left_out, null_value, number_value, text_value};
use serde_json::{Map, Value as Json};
use sqlite_items::{Boxed, Items};
use std::alloc::Global;
use struct_members::members_of;
use wdl_base::{Name, NoMemory};
use wdl_names::Indexed;
use wdl_value::{Field, MapRow, Member, StructDef, Ty, Value, bare_type};

/// The value that JSON is at the type, where struct names are those of `structs`; none where it is
/// no value of it. Its time is linear but for a logarithm.
#[cycle(reading)]
pub fn read_value(
    alloc: Global,
    json: &Json,
    t: &Ty,
    structs: &Indexed<StructDef>,
) -> Result<Option<Value>, NoMemory>
    ensures value { IfOk result (λ o. o ≡ spec.reads structs.now (view json.now) t.now) }
{
    match json {
        Json::Null => Ok(null_value(t)),
        Json::Bool(b) => Ok(bool_value(*b, bare_type(t))),
        Json::Number(n) => Ok(number_value(n, bare_type(t))),
        Json::String(s) => text_value(alloc, s.as_str(), bare_type(t)),
        Json::Array(items) => array_value(alloc, items.as_slice(), bare_type(t), structs),
        Json::Object(members) => object_value(alloc, members, bare_type(t), structs),
    }
}

#[cycle(reading)]
fn array_value(
    alloc: Global,
    items: &[Json],
    kind: &Ty,
    structs: &Indexed<StructDef>,
) -> Result<Option<Value>, NoMemory>
    ensures { IfOk result (λ o. o ≡ spec.array_read (spec.item_readers structs.now (items_view items.now)) (out-Ty kind.now)) }
{
    match kind {
        Ty::Array { item, some } => list_value(alloc, items, item.get(), *some, structs),
        _ => Ok(None),
    }
}

#[cycle(reading)]
fn list_value(
    alloc: Global,
    items: &[Json],
    t: &Ty,
    some: bool,
    structs: &Indexed<StructDef>,
) -> Result<Option<Value>, NoMemory>
    ensures { IfOk result (λ o. o ≡ spec.list_read (spec.item_readers structs.now (items_view items.now)) t.now some) }
{
    match items {
        [] => empty_list(alloc, some),
        _ => Ok(item_values(alloc, items, t, structs)?.map(Value::List)),
    }
}

#[cycle(reading)]
fn item_values(
    alloc: Global,
    items: &[Json],
    t: &Ty,
    structs: &Indexed<StructDef>,
) -> Result<Option<Items<Value>>, NoMemory>
    ensures { IfOk result (λ o. o ≡ spec.all_read (spec.item_readers structs.now (items_view items.now)) t.now) }
{
    let mut values = Items::new(alloc);
    for item in items {
        let Some(value) = read_value(alloc, item, t, structs)? else {
            return Ok(None);
        };
        values.push(value)?;
    }
    Ok(Some(values))
}

#[cycle(reading)]
fn object_value(
    alloc: Global,
    members: &Map<String, Json>,
    kind: &Ty,
    structs: &Indexed<StructDef>,
) -> Result<Option<Value>, NoMemory>
    ensures { IfOk result (λ o. o ≡ spec.object_read structs.now (spec.member_readers structs.now (members_view members.now.entries)) (out-Ty kind.now)) }
{
    match kind {
        Ty::Pair { left, right } => pair_value(alloc, members, left.get(), right.get(), structs),
        Ty::Map { key, value } => map_value(alloc, members, key.get(), value.get(), structs),
        Ty::Struct(name) => match members_of(structs, name) {
            Some(declared) => struct_value(alloc, members, name, declared, structs),
            None => Ok(None),
        },
        _ => Ok(None),
    }
}

#[cycle(reading)]
fn part_value(
    alloc: Global,
    members: &Map<String, Json>,
    name: &str,
    t: &Ty,
    structs: &Indexed<StructDef>,
) -> Result<Option<Value>, NoMemory>
    ensures { IfOk result (λ o. o ≡ spec.part_read name.now (spec.member_readers structs.now (members_view members.now.entries)) t.now) }
{
    match members.get(name) {
        Some(json) => read_value(alloc, json, t, structs),
        None => Ok(None),
    }
}

#[cycle(reading)]
fn pair_value(
    alloc: Global,
    members: &Map<String, Json>,
    t: &Ty,
    u: &Ty,
    structs: &Indexed<StructDef>,
) -> Result<Option<Value>, NoMemory>
    ensures { IfOk result (λ o. o ≡ spec.pair_read (spec.member_readers structs.now (members_view members.now.entries)) t.now u.now) }
{
    if members.len() != 2 {
        return Ok(None);
    }
    let Some(left) = part_value(alloc, members, "left", t, structs)? else {
        return Ok(None);
    };
    let Some(right) = part_value(alloc, members, "right", u, structs)? else {
        return Ok(None);
    };
    Ok(Some(Value::Pair(Boxed::new(alloc, left)?, Boxed::new(alloc, right)?)))
}

#[cycle(reading)]
fn row_values(
    alloc: Global,
    members: &Map<String, Json>,
    t: &Ty,
    u: &Ty,
    structs: &Indexed<StructDef>,
) -> Result<Option<Items<MapRow<Value>>>, NoMemory>
    ensures { IfOk result (λ o. o ≡ spec.rows_read (spec.member_readers structs.now (members_view members.now.entries)) t.now u.now) }
{
    let mut rows = Items::new(alloc);
    for (name, json) in members.iter() {
        let Some(key) = key_value(alloc, name.as_str(), t)? else {
            return Ok(None);
        };
        let Some(value) = read_value(alloc, json, u, structs)? else {
            return Ok(None);
        };
        rows.push(MapRow { key, value })?;
    }
    Ok(Some(rows))
}

#[cycle(reading)]
fn map_value(
    alloc: Global,
    members: &Map<String, Json>,
    t: &Ty,
    u: &Ty,
    structs: &Indexed<StructDef>,
) -> Result<Option<Value>, NoMemory>
    ensures { IfOk result (λ o. o ≡ spec.map_read (spec.member_readers structs.now (members_view members.now.entries)) t.now u.now) }
{
    Ok(row_values(alloc, members, t, u, structs)?.map(Value::Map))
}

#[cycle(reading)]
fn member_value(
    alloc: Global,
    members: &Map<String, Json>,
    member: &Member,
    structs: &Indexed<StructDef>,
) -> Result<Option<Value>, NoMemory>
    ensures { IfOk result (λ o. o ≡ spec.member_read (spec.member_readers structs.now (members_view members.now.entries)) member.now) }
{
    match members.get(member.name.as_str()) {
        Some(json) => read_value(alloc, json, &member.ty, structs),
        None => Ok(left_out(&member.ty)),
    }
}

#[cycle(reading)]
fn field_values(
    alloc: Global,
    members: &Map<String, Json>,
    declared: &[Member],
    structs: &Indexed<StructDef>,
) -> Result<Option<Items<Field<Value>>>, NoMemory>
    ensures { IfOk result (λ o. o ≡ spec.fields_read (spec.member_readers structs.now (members_view members.now.entries)) declared.now) }
{
    let mut fields = Items::new(alloc);
    for member in declared {
        let Some(value) = member_value(alloc, members, member, structs)? else {
            return Ok(None);
        };
        let name = member.name.copy(alloc)?;
        fields.push(Field { name, value })?;
    }
    Ok(Some(fields))
}

#[cycle(reading)]
#[tactic(auto, using(crate::proofs::Members::member_names))]
fn struct_value(
    alloc: Global,
    members: &Map<String, Json>,
    name: &Name,
    declared: &[Member],
    structs: &Indexed<StructDef>,
) -> Result<Option<Value>, NoMemory>
    ensures { IfOk result (λ o. o ≡ spec.struct_read name.now (spec.member_readers structs.now (members_view members.now.entries)) declared.now) }
{
    if !are_declared(alloc, members, declared)? {
        return Ok(None);
    }
    let Some(fields) = field_values(alloc, members, declared, structs)? else {
        return Ok(None);
    };
    let name = name.copy(alloc)?;
    Ok(Some(Value::Struct { name, fields }))
}
