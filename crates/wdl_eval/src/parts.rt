//! The parts of values: members, items, and the values of maps. None is copied.

ghost use Rattle.wdl_value.specs.declared.value.Value.{out-Value};
ghost use Rattle.wdl_typed.specs.Evaluation as spec;
ghost use Rattle.wdl_eval.specs.Meets.{Lends};

use crate::fault::NodeFault;
use wdl_value::{EvalCode, Field, MapRow, Name, Value, same_value};

fn field_in<'a>(fields: &'a [Field<Value>], name: &Name) -> Result<&'a Value, NodeFault>
    ensures { Lends (spec.field_among fields.now name.now) result }
{
    for field in fields {
        if field.name.same(name) {
            return Ok(&field.value);
        }
    }
    Err(NodeFault::Wrong)
}

/// The part of a pair, or the member of a struct.
pub fn member_in<'a>(value: &'a Value, name: &Name) -> Result<&'a Value, NodeFault>
    ensures { Lends (spec.member_at name.now (out-Value value.now)) result }
{
    match value {
        Value::Pair(left, _) if name.is("left") => Ok(left.get()),
        Value::Pair(_, right) if name.is("right") => Ok(right.get()),
        Value::Struct { fields, .. } => field_in(fields.as_slice(), name),
        _ => Err(NodeFault::Wrong),
    }
}

fn item_in(items: &[Value], n: i64) -> Result<&Value, NodeFault>
    ensures { Lends (spec.item_at items.now n) result }
{
    if n < 0 {
        return Err(NodeFault::Code(EvalCode::IndexOut));
    }
    match items.get(n as usize) {
        Some(item) => Ok(item),
        None => Err(NodeFault::Code(EvalCode::IndexOut)),
    }
}

fn value_in<'a>(rows: &'a [MapRow<Value>], key: &Value) -> Result<&'a Value, NodeFault>
    ensures { Lends (spec.value_at rows.now key.now) result }
{
    for row in rows {
        if same_value(&row.key, key) {
            return Ok(&row.value);
        }
    }
    Err(NodeFault::Code(EvalCode::KeyMissing))
}

/// The item of a list, or the value of a key of a map, in time linear in the map.
pub fn indexed<'a>(value: &'a Value, index: &Value) -> Result<&'a Value, NodeFault>
    ensures { Lends (spec.indexed (out-Value value.now) index.now (out-Value index.now)) result }
{
    match (value, index) {
        (Value::List(items), Value::Int(n)) => item_in(items.as_slice(), *n),
        (Value::Map(rows), _) => value_in(rows.as_slice(), index),
        _ => Err(NodeFault::Wrong),
    }
}
