//! The files of a job's own as paths in its directory (OpenWDL 1.1, "Task Outputs").

ghost use Rattle.std.specs.Prelude.{◌≡◌, ◌++◌, ◌∷◌, Some, IfOk};
ghost use Rattle.wdl_stdlib.specs.Gives.{Gives};
ghost use Rattle.wdl_typed.specs.Requests as spec;
ghost use Rattle.wdl_task.specs.Members as lists;

use std::alloc::Global;
use wdl_eval::EvalFault;
use wdl_stdlib::{begins_at_root, below, left_body, local_name};
use wdl_value::{
    Answer, Boxed, EvalCode, Field, Items, MapRow, Member, Name, NoMemory, StructDef, Text, Ty,
    Value, bare_type, has_key, is_optional,
};

/// Where a value is landed: the structs by their names, the directory of the job, and what its
/// command left.
#[derive(Drop)]
pub struct Shore<'a> {
    pub structs: &'a [StructDef],
    pub dir: &'a Text,
    pub answer: &'a Answer,
}

/// Whether a path begins at the root and is not in the directory.
fn is_outside(dir: &str, path: &str) -> bool
    ensures { result ≡ spec.is_outside dir.now path.now }
{
    begins_at_root(path) && below(dir, path).is_none()
}

fn joined(alloc: Global, dir: &Text, name: &Text) -> Result<Text, NoMemory>
    ensures { IfOk result (λ t. t ≡ dir.now ++ 47 ∷ name.now) }
{
    let mut path = dir.copy(alloc)?;
    path.push_ascii(b'/')?;
    path.push_str(name.as_str())?;
    Ok(path)
}

/// A file that is not there is undefined where it may be.
fn missing_file(absent: bool) -> Result<Value, EvalFault>
    ensures { Gives (spec.missing_file absent) result }
{
    if absent {
        return Ok(Value::Absent);
    }
    Err(EvalFault::Code(EvalCode::FileMissing))
}

/// A file that is not among the names that were kept. Where not all were kept, it may be there.
fn unlisted_file(answer: &Answer, absent: bool) -> Result<Value, EvalFault>
    ensures { Gives (spec.unlisted_file answer.now absent) result }
{
    if answer.is_cut() {
        return Err(EvalFault::Code(EvalCode::BodyLong));
    }
    missing_file(absent)
}

/// The file of that name, where it is there.
fn named_file(
    alloc: Global,
    shore: &Shore<'_>,
    name: &Text,
    absent: bool,
) -> Result<Value, EvalFault>
    ensures { Gives (spec.named_file shore.now.dir.now shore.now.answer.now absent (Some name.now)) result }
{
    if left_body(shore.answer, name.as_str()).is_some() {
        return Ok(Value::File(joined(alloc, shore.dir, name)?));
    }
    unlisted_file(shore.answer, absent)
}

/// The path of a file that is there; a file that is not there is undefined where it may be.
fn landed_file(
    alloc: Global,
    shore: &Shore<'_>,
    path: &Text,
    absent: bool,
) -> Result<Value, EvalFault>
    ensures { Gives (spec.landed_file shore.now.dir.now shore.now.answer.now path.now absent) result }
{
    if is_outside(shore.dir.as_str(), path.as_str()) {
        return Ok(Value::File(path.copy(alloc)?));
    }
    match local_name(alloc, shore.dir, path)? {
        Some(name) => named_file(alloc, shore, &name, absent),
        None => missing_file(absent),
    }
}

/// The members of the first struct of that name; none where there is no such struct.
fn members_of<'a>(structs: &'a [StructDef], name: &Name) -> &'a [Member]
    ensures { result.now ≡ lists.members_or_none structs.now name.now }
{
    for def in structs {
        if def.name.same(name) {
            return def.members.as_slice();
        }
    }
    &[]
}

/// The value with each file of the job's own as a path in its directory.
#[cycle(landed)]
pub fn landed(alloc: Global, value: &Value, t: &Ty, shore: &Shore<'_>) -> Result<Value, EvalFault>
    ensures { Gives (spec.landed shore.now.structs.now shore.now.dir.now shore.now.answer.now value.now t.now) result }
{
    match (value, bare_type(t)) {
        (Value::File(path), _) => landed_file(alloc, shore, path, is_optional(t)),
        (Value::List(items), Ty::Array { item, .. }) => {
            list_landed(alloc, items.as_slice(), item.get(), shore)
        }
        (Value::Pair(left, right), Ty::Pair { left: t, right: u }) => {
            let left = landed(alloc, left.get(), t.get(), shore)?;
            let right = landed(alloc, right.get(), u.get(), shore)?;
            Ok(Value::Pair(Boxed::new(alloc, left)?, Boxed::new(alloc, right)?))
        }
        (Value::Map(rows), Ty::Map { key, value }) => {
            map_landed(alloc, rows.as_slice(), key.get(), value.get(), shore)
        }
        (Value::Struct { name, fields }, _) => {
            struct_landed(alloc, fields.as_slice(), name, shore)
        }
        (Value::List(_) | Value::Pair(_, _) | Value::Map(_), _) => Ok(Value::Absent),
        _ => Ok(value.copy(alloc)?),
    }
}

#[cycle(landed)]
fn list_landed(
    alloc: Global,
    items: &[Value],
    t: &Ty,
    shore: &Shore<'_>,
) -> Result<Value, EvalFault>
    ensures { Gives (lists.landed_list shore.now.structs.now shore.now.dir.now shore.now.answer.now items.now t.now) result }
{
    let mut all = Items::new(alloc);
    for item in items {
        all.push(landed(alloc, item, t, shore)?)?;
    }
    Ok(Value::List(all))
}

/// The map of the landed rows, of which no two have one key.
#[cycle(landed)]
fn map_landed(
    alloc: Global,
    rows: &[MapRow<Value>],
    t: &Ty,
    u: &Ty,
    shore: &Shore<'_>,
) -> Result<Value, EvalFault>
    ensures { Gives (lists.landed_map shore.now.structs.now shore.now.dir.now shore.now.answer.now rows.now t.now u.now) result }
{
    let mut all: Items<MapRow<Value>> = Items::new(alloc);
    for row in rows {
        let key = landed(alloc, &row.key, t, shore)?;
        if has_key(&key, all.as_slice()) {
            return Err(EvalFault::Code(EvalCode::RepeatedKey));
        }
        let value = landed(alloc, &row.value, u, shore)?;
        all.push(MapRow { key, value })?;
    }
    Ok(Value::Map(all))
}

#[cycle(landed)]
fn struct_landed(
    alloc: Global,
    fields: &[Field<Value>],
    name: &Name,
    shore: &Shore<'_>,
) -> Result<Value, EvalFault>
    ensures { Gives (lists.landed_struct shore.now.structs.now shore.now.dir.now shore.now.answer.now name.now fields.now) result }
{
    let mut all = Items::new(alloc);
    let mut left = members_of(shore.structs, name);
    for field in fields {
        let [member, rest @ ..] = left else {
            break;
        };
        let value = landed(alloc, &field.value, &member.ty, shore)?;
        let name = field.name.copy(alloc)?;
        all.push(Field { name, value })?;
        left = rest;
    }
    Ok(Value::Struct {
        name: name.copy(alloc)?,
        fields: all,
    })
}
