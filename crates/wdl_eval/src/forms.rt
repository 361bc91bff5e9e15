//! The values of single forms of expressions, once their parts have values.

ghost use Rattle.std.specs.Prelude.{Ok};
ghost use Rattle.wdl_value.specs.declared.value.Value.{out-Value};
ghost use Rattle.wdl_value.specs.declared.value.Value.TheVariants as v;
ghost use Rattle.wdl_value.specs.Apply.{apply as applied_value};
ghost use Rattle.wdl_value.specs.Cast.{cast as cast_value};
ghost use Rattle.wdl_value.specs.Operate.{operate as operated_value};
ghost use Rattle.wdl_typed.specs.Evaluation as spec;
ghost use Rattle.wdl_typed.specs.Scope.{lookup as looked_up};
ghost use Rattle.wdl_eval.specs.Meets.{Meets};
ghost use Rattle.wdl_eval.specs.Nodes.{setting_of, within};

use crate::fault::NodeFault;
use crate::keys::are_distinct;
use crate::outcome::{copied, given, limited};
use crate::parts::{indexed, member_in};
use crate::setting::Setting;
use std::alloc::Global;
use wdl_stdlib::{apply, negate, operate};
use wdl_value::{
    Boxed, CastFault, EvalCode, Field, Func, Items, Key, MapRow, Name, Op, Ty, Value, cast,
};

/// The value of a name.
pub fn value_of(alloc: Global, key: &Key, setting: &Setting<'_, '_>) -> Result<Value, NodeFault>
    ensures { Meets (within (spec.found (looked_up (setting_of setting.now).env key.now))) result }
{
    Ok(setting.env.value(key)?.copy(alloc)?)
}

/// The part of a pair, or the member of a struct.
pub fn member_of(alloc: Global, value: &Value, name: &Name) -> Result<Value, NodeFault>
    ensures { Meets (within (spec.member_at name.now (out-Value value.now))) result }
{
    copied(alloc, member_in(value, name)?)
}

/// The item of a list, or the value of a key of a map.
pub fn item_of(alloc: Global, value: &Value, index: &Value) -> Result<Value, NodeFault>
    ensures { Meets (within (spec.indexed (out-Value value.now) index.now (out-Value index.now))) result }
{
    copied(alloc, indexed(value, index)?)
}

/// The negation of a Boolean.
pub fn not_of(value: &Value) -> Result<Value, NodeFault>
    ensures { Meets (within (spec.not_at (out-Value value.now))) result }
{
    match value {
        Value::Bool(b) => limited(Value::Bool(!*b)),
        _ => Err(NodeFault::Wrong),
    }
}

/// The number with the other sign.
pub fn neg_of(value: &Value) -> Result<Value, NodeFault>
    ensures { Meets (within (spec.neg_at value.now (out-Value value.now))) result }
{
    match value {
        Value::Int(_) => limited(given(negate(value))?),
        _ => Err(NodeFault::Wrong),
    }
}

/// The right side of `&&` or `||`.
pub fn only_bool(value: &Value) -> Result<Value, NodeFault>
    ensures { Meets (within (spec.only_bool (out-Value value.now))) result }
{
    match value {
        Value::Bool(b) => limited(Value::Bool(*b)),
        _ => Err(NodeFault::Wrong),
    }
}

/// The value of an operator, once both sides have values.
pub fn operated(alloc: Global, op: Op, left: &Value, right: &Value) -> Result<Value, NodeFault>
    ensures { Meets (within (spec.met (operated_value op left.now right.now))) result }
{
    given(operate(alloc, op, left, right))
}

/// A pair of two values, within the limits of a value.
pub fn pair_of(alloc: Global, left: Value, right: Value) -> Result<Value, NodeFault>
    ensures { Meets (within (Ok (v.Pair left right))) result }
{
    limited(Value::Pair(Boxed::new(alloc, left)?, Boxed::new(alloc, right)?))
}

/// The map of these rows, whose keys must be distinct.
pub fn map_of(alloc: Global, rows: Items<MapRow<Value>>) -> Result<Value, NodeFault>
    ensures { Meets (within (spec.map_of rows)) result }
{
    if are_distinct(alloc, rows.as_slice())? {
        return limited(Value::Map(rows));
    }
    Err(NodeFault::Code(EvalCode::RepeatedKey))
}

/// A struct of the values of its fields, within the limits of a value.
pub fn struct_of(
    alloc: Global,
    name: &Name,
    fields: Items<Field<Value>>,
) -> Result<Value, NodeFault>
    ensures { Meets (within (Ok (v.Struct name.now fields))) result }
{
    let name = name.copy(alloc)?;
    limited(Value::Struct { name, fields })
}

/// The value of a function of the standard library.
pub fn applied(
    alloc: Global,
    f: Func,
    args: &[Value],
    setting: &Setting<'_, '_>,
) -> Result<Value, NodeFault>
    ensures { Meets (within (spec.met (applied_value (setting_of setting.now).dir (setting_of setting.now).answer f args.now))) result }
{
    given(apply(alloc, f, args, setting.dir, setting.answer))
}

/// A value cast to a type: an empty list is no `Array[T]+` (code 505).
pub fn cast_to(alloc: Global, value: &Value, t: &Ty) -> Result<Value, NodeFault>
    ensures { Meets (within (spec.from_cast (cast_value value.now t.now))) result }
{
    match cast(alloc, value, t) {
        Ok(value) => limited(value),
        Err(CastFault::EmptyArray) => Err(NodeFault::Code(EvalCode::EmptyArray)),
        Err(CastFault::NoMemory) => Err(NodeFault::NoMemory),
    }
}
