//! Which values a type takes.

ghost use Rattle.std.specs.Prelude.{◌≡◌};
ghost use Rattle.std.specs.Option.{option_copied};
ghost use Rattle.wdl_value.specs.Fits as spec;
ghost use Rattle.wdl_value.specs.declared.ty.Ty.{out-Ty};

use crate::bare::{bare_type, is_optional};
use crate::keyed::keyed;
use crate::ty::{Member, StructDef, Structs, Ty};
use crate::value::{Field, MapRow, Value};
use sqlite_items::Items;
use wdl_base::Name;

/// Whether the value fits the type, where struct names are those of `structs` (OpenWDL 1.1,
/// "Types"). It takes no memory. Its time is linear in the value, but quadratic in the rows of one
/// map, whose keys must be distinct.
pub fn fits(v: &Value, t: &Ty, structs: &Structs) -> bool
    ensures value { result ≡ spec.fits structs.now v.now t.now }
{
    takes(v, t, structs.as_slice()) && keyed(v)
}

/// The members of the first struct of that name.
fn members_of<'a>(structs: &'a [StructDef], name: &Name) -> Option<&'a Items<Member>>
    ensures { option_copied result ≡ spec.members_of structs.now name.now }
{
    for def in structs {
        if def.name.same(name) {
            return Some(&def.members);
        }
    }
    None
}

/// Every integer of 64 bits is one of the type Int.
fn takes_int(n: i64, kind: &Ty) -> bool
    ensures { result ≡ spec.int_fits n (out-Ty kind.now) }
{
    matches!(kind, Ty::Int)
}

/// Whether the value fits the type but for the keys of its maps, which may be repeated.
#[cycle(takes)]
fn takes(value: &Value, t: &Ty, structs: &[StructDef]) -> bool
    ensures { result ≡ spec.takes structs.now value.now t.now }
{
    let kind = bare_type(t);
    match value {
        Value::Bool(_) => matches!(kind, Ty::Bool),
        Value::Int(n) => takes_int(*n, kind),
        Value::Str(_) => matches!(kind, Ty::Str),
        Value::File(_) => matches!(kind, Ty::File),
        Value::List(items) => match kind {
            Ty::Array { item, some } => takes_list(items.as_slice(), item.get(), *some, structs),
            _ => false,
        },
        Value::Pair(left, right) => match kind {
            Ty::Pair { left: t, right: u } => {
                takes(left.get(), t.get(), structs) && takes(right.get(), u.get(), structs)
            }
            _ => false,
        },
        Value::Map(rows) => match kind {
            Ty::Map { key, value } => takes_rows(rows.as_slice(), key.get(), value.get(), structs),
            _ => false,
        },
        Value::Struct { name, fields } => match kind {
            Ty::Struct(declared) if name.same(declared) => match members_of(structs, declared) {
                Some(members) => takes_fields(fields.as_slice(), members.as_slice(), structs),
                None => false,
            },
            _ => false,
        },
        Value::Absent => is_optional(t) || matches!(kind, Ty::Absent),
    }
}

#[cycle(takes)]
fn takes_list(items: &[Value], t: &Ty, some: bool, structs: &[StructDef]) -> bool
    ensures { result ≡ spec.takes_list structs.now items.now t.now some }
{
    match items {
        [] => !some,
        _ => takes_all(items, t, structs),
    }
}

#[cycle(takes)]
fn takes_all(items: &[Value], t: &Ty, structs: &[StructDef]) -> bool
    ensures { result ≡ spec.takes_all structs.now items.now t.now }
{
    for item in items {
        if !takes(item, t, structs) {
            return false;
        }
    }
    true
}

#[cycle(takes)]
fn takes_rows(rows: &[MapRow<Value>], t: &Ty, u: &Ty, structs: &[StructDef]) -> bool
    ensures { result ≡ spec.takes_rows structs.now rows.now t.now u.now }
{
    for row in rows {
        if !(takes(&row.key, t, structs) && takes(&row.value, u, structs)) {
            return false;
        }
    }
    true
}

#[cycle(takes)]
fn takes_fields(fields: &[Field<Value>], members: &[Member], structs: &[StructDef]) -> bool
    ensures { result ≡ spec.takes_fields structs.now fields.now members.now }
{
    let mut left = members;
    for field in fields {
        let [member, rest @ ..] = left else {
            return false;
        };
        if !(field.name.same(&member.name) && takes(&field.value, &member.ty, structs)) {
            return false;
        }
        left = rest;
    }
    left.is_empty()
}
