//! The member of a value of an inputs file that does not fit.

use crate::path::Path;
use json_values::{key_value, read_value};
use serde_json::{Map, Value as Json};
use std::alloc::Global;
use struct_members::members_of;
use wdl_base::NoMemory;
use wdl_names::Indexed;
use wdl_value::{Member, Name, StructDef, Ty, bare_type};

/// The most steps from a value to a member: more than the types of a document nest.
const MOST_STEPS: usize = 512;

/// Why JSON is no value of a type, at the member where it is not.
#[derive(Clone, Copy)]
pub(crate) enum Misfit<'a> {
    /// It is something else.
    Value {
        found: &'a Json,
        expected: &'a Ty,
    },
    /// It is not there.
    Missing {
        expected: &'a Ty,
    },
    /// The key of a map is something else.
    Key {
        found: &'a str,
        expected: &'a Ty,
    },
    /// No member of the struct has the name.
    Unknown {
        name: &'a str,
        owner: &'a Name,
        declared: &'a [Member],
    },
}

/// Where the search goes on, or that it ends.
#[derive(Clone, Copy)]
enum Turn<'a> {
    Down(&'a Json, &'a Ty),
    Here(Misfit<'a>),
}

/// Whether JSON is a value of a type.
fn fits(
    alloc: Global,
    json: &Json,
    ty: &Ty,
    structs: &Indexed<StructDef>,
) -> Result<bool, NoMemory> {
    Ok(read_value(alloc, json, ty, structs)?.is_some())
}

/// The first item that does not fit.
fn in_items<'a>(
    alloc: Global,
    json: &'a Json,
    items: &'a [Json],
    ty: &'a Ty,
    item: &'a Ty,
    structs: &Indexed<StructDef>,
    path: &mut Path,
) -> Result<Turn<'a>, NoMemory> {
    for (at, each) in items.iter().enumerate() {
        if !fits(alloc, each, item, structs)? {
            path.push_index(at)?;
            return Ok(Turn::Down(each, item));
        }
    }
    Ok(Turn::Here(Misfit::Value {
        found: json,
        expected: ty,
    }))
}

/// The first key or value of a map that does not fit.
fn in_rows<'a>(
    alloc: Global,
    json: &'a Json,
    rows: &'a Map<String, Json>,
    ty: &'a Ty,
    key: &'a Ty,
    value: &'a Ty,
    structs: &Indexed<StructDef>,
    path: &mut Path,
) -> Result<Turn<'a>, NoMemory> {
    for (name, each) in rows.iter() {
        if key_value(alloc, name.as_str(), key)?.is_none() {
            return Ok(Turn::Here(Misfit::Key {
                found: name.as_str(),
                expected: key,
            }));
        }
        if !fits(alloc, each, value, structs)? {
            path.push_key(name.as_str())?;
            return Ok(Turn::Down(each, value));
        }
    }
    Ok(Turn::Here(Misfit::Value {
        found: json,
        expected: ty,
    }))
}

/// Whether a member of an object fits, which may be left out where its type is optional. Where it
/// does not fit, its name is appended to the path.
fn in_member<'a>(
    alloc: Global,
    members: &'a Map<String, Json>,
    name: &str,
    ty: &'a Ty,
    structs: &Indexed<StructDef>,
    path: &mut Path,
) -> Result<Option<Turn<'a>>, NoMemory> {
    let Some(json) = members.get(name) else {
        if let Ty::Opt(_) = ty {
            return Ok(None);
        }
        path.push_member(name)?;
        return Ok(Some(Turn::Here(Misfit::Missing { expected: ty })));
    };
    if fits(alloc, json, ty, structs)? {
        return Ok(None);
    }
    path.push_member(name)?;
    Ok(Some(Turn::Down(json, ty)))
}

/// The part of a pair that does not fit.
fn in_pair<'a>(
    alloc: Global,
    json: &'a Json,
    members: &'a Map<String, Json>,
    ty: &'a Ty,
    left: &'a Ty,
    right: &'a Ty,
    structs: &Indexed<StructDef>,
    path: &mut Path,
) -> Result<Turn<'a>, NoMemory> {
    if let Some(turn) = in_member(alloc, members, "left", left, structs, path)? {
        return Ok(turn);
    }
    if let Some(turn) = in_member(alloc, members, "right", right, structs, path)? {
        return Ok(turn);
    }
    Ok(Turn::Here(Misfit::Value {
        found: json,
        expected: ty,
    }))
}

/// Whether a struct declares a member.
fn declares(declared: &[Member], name: &str) -> bool {
    for member in declared {
        if member.name.is(name) {
            return true;
        }
    }
    false
}

/// The name of the first member of the object that the struct does not declare.
fn undeclared<'a>(members: &'a Map<String, Json>, declared: &[Member]) -> Option<&'a str> {
    for (name, _) in members.iter() {
        if !declares(declared, name.as_str()) {
            return Some(name.as_str());
        }
    }
    None
}

/// The member of a struct that does not fit.
fn in_struct<'a>(
    alloc: Global,
    json: &'a Json,
    members: &'a Map<String, Json>,
    ty: &'a Ty,
    owner: &'a Name,
    structs: &Indexed<'a, StructDef>,
    path: &mut Path,
) -> Result<Turn<'a>, NoMemory> {
    let declared = members_of(structs, owner).unwrap_or(&[]);
    if let Some(name) = undeclared(members, declared) {
        path.push_member(name)?;
        return Ok(Turn::Here(Misfit::Unknown {
            name,
            owner,
            declared,
        }));
    }
    for member in declared {
        let name = member.name.as_str();
        if let Some(turn) = in_member(alloc, members, name, &member.ty, structs, path)? {
            return Ok(turn);
        }
    }
    Ok(Turn::Here(Misfit::Value {
        found: json,
        expected: ty,
    }))
}

/// One step towards the member that does not fit.
fn one_step<'a>(
    alloc: Global,
    json: &'a Json,
    ty: &'a Ty,
    structs: &Indexed<'a, StructDef>,
    path: &mut Path,
) -> Result<Turn<'a>, NoMemory> {
    let kind = bare_type(ty);
    match json {
        Json::Array(items) => match kind {
            Ty::Array { item, .. } => {
                in_items(alloc, json, items.as_slice(), ty, item.get(), structs, path)
            }
            _ => here(json, ty),
        },
        Json::Object(members) => match kind {
            Ty::Map { key, value } => {
                in_rows(
                    alloc,
                    json,
                    members,
                    ty,
                    key.get(),
                    value.get(),
                    structs,
                    path,
                )
            }
            Ty::Pair { left, right } => {
                in_pair(
                    alloc,
                    json,
                    members,
                    ty,
                    left.get(),
                    right.get(),
                    structs,
                    path,
                )
            }
            Ty::Struct(owner) => in_struct(alloc, json, members, ty, owner, structs, path),
            _ => here(json, ty),
        },
        _ => here(json, ty),
    }
}

fn here<'a>(found: &'a Json, expected: &'a Ty) -> Result<Turn<'a>, NoMemory> {
    Ok(Turn::Here(Misfit::Value { found, expected }))
}

/// Returns the member of JSON that keeps it from being a value of the type, and appends the path to
/// it.
pub(crate) fn culprit<'a>(
    alloc: Global,
    json: &'a Json,
    ty: &'a Ty,
    structs: &Indexed<'a, StructDef>,
    path: &mut Path,
) -> Result<Misfit<'a>, NoMemory> {
    let mut found = json;
    let mut expected = ty;
    for _ in 0..MOST_STEPS {
        match one_step(alloc, found, expected, structs, path)? {
            Turn::Here(misfit) => return Ok(misfit),
            Turn::Down(part, part_ty) => {
                found = part;
                expected = part_ty;
            }
        }
    }
    Ok(Misfit::Value { found, expected })
}
