ghost use Rattle.std.specs.Prelude.{◌≡◌, IfOk};

use sqlite_items::{Boxed, Items};
use std::alloc::Global;
use wdl_base::{Name, NoMemory, Text};

/// A row of a map.
#[derive(Debug, Drop)]
pub struct MapRow<V> {
    pub key: V,
    pub value: V,
}

/// A member of a struct's value.
#[derive(Debug, Drop)]
pub struct Field<V> {
    pub name: Name,
    pub value: V,
}

/// A value of WDL 1.1. The keys of a `Map` are distinct in every value that fits a type.
#[derive(Debug, Drop)]
pub enum Value {
    Bool(bool),
    Int(i64),
    Str(Text),
    File(Text),
    List(Items<Value>),
    Pair(Boxed<Value>, Boxed<Value>),
    Map(Items<MapRow<Value>>),
    Struct {
        name: Name,
        fields: Items<Field<Value>>,
    },
    Absent,
}

impl Value {
    /// A copy of the value, in time linear in its size.
    #[cycle(copy)]
    pub fn copy(&self, alloc: Global) -> Result<Value, NoMemory>
        ensures { IfOk result (λ c. c ≡ self.now) }
    {
        match self {
            Value::Bool(b) => Ok(Value::Bool(*b)),
            Value::Int(n) => Ok(Value::Int(*n)),
            Value::Str(s) => Ok(Value::Str(s.copy(alloc)?)),
            Value::File(s) => Ok(Value::File(s.copy(alloc)?)),
            Value::List(items) => Ok(Value::List(copy_values(alloc, items.as_slice())?)),
            Value::Pair(left, right) => {
                let left = left.get().copy(alloc)?;
                let right = right.get().copy(alloc)?;
                Ok(Value::Pair(Boxed::new(alloc, left)?, Boxed::new(alloc, right)?))
            }
            Value::Map(rows) => Ok(Value::Map(copy_rows(alloc, rows.as_slice())?)),
            Value::Struct { name, fields } => {
                let name = name.copy(alloc)?;
                let fields = copy_fields(alloc, fields.as_slice())?;
                Ok(Value::Struct { name, fields })
            }
            Value::Absent => Ok(Value::Absent),
        }
    }
}

/// The values in a list of their own.
#[cycle(copy)]
pub fn copy_values(alloc: Global, values: &[Value]) -> Result<Items<Value>, NoMemory>
    ensures { IfOk result (λ c. c ≡ values.now) }
{
    let mut copies = Items::new(alloc);
    for value in values {
        copies.push(value.copy(alloc)?)?;
    }
    Ok(copies)
}

#[cycle(copy)]
fn copy_rows(alloc: Global, rows: &[MapRow<Value>]) -> Result<Items<MapRow<Value>>, NoMemory>
    ensures { IfOk result (λ c. c ≡ rows.now) }
{
    let mut copies = Items::new(alloc);
    for row in rows {
        let key = row.key.copy(alloc)?;
        let value = row.value.copy(alloc)?;
        copies.push(MapRow { key, value })?;
    }
    Ok(copies)
}

#[cycle(copy)]
fn copy_fields(alloc: Global, fields: &[Field<Value>]) -> Result<Items<Field<Value>>, NoMemory>
    ensures { IfOk result (λ c. c ≡ fields.now) }
{
    let mut copies = Items::new(alloc);
    for field in fields {
        let name = field.name.copy(alloc)?;
        let value = field.value.copy(alloc)?;
        copies.push(Field { name, value })?;
    }
    Ok(copies)
}
