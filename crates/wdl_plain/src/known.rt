ghost use Rattle.std.specs.Prelude.{◌≡◌, IfOk};

use std::alloc::Global;
use wdl_value::{Key, Name, NoMemory, Value};

/// A name with its value, or missing.
#[derive(Debug, Drop)]
pub struct Known {
    pub key: Key,
    pub value: Option<Value>,
}

/// A call, and whether it has ended.
#[derive(Debug, Drop)]
pub struct Ended {
    pub call: Name,
    pub ended: bool,
}

/// A copy of a value that may be missing.
pub fn copy_value(alloc: Global, value: &Option<Value>) -> Result<Option<Value>, NoMemory>
    ensures { IfOk result (λ v. v ≡ value.now) }
{
    match value {
        Some(value) => Ok(Some(value.copy(alloc)?)),
        None => Ok(None),
    }
}

impl Known {
    /// A copy of the value.
    pub fn copy(&self, alloc: Global) -> Result<Known, NoMemory>
        ensures { IfOk result (λ k. k ≡ self.now) }
    {
        let key = self.key.copy(alloc)?;
        let value = copy_value(alloc, &self.value)?;
        Ok(Known { key, value })
    }
}

impl Ended {
    /// A copy of the value.
    pub fn copy(&self, alloc: Global) -> Result<Ended, NoMemory>
        ensures { IfOk result (λ e. e ≡ self.now) }
    {
        Ok(Ended {
            call: self.call.copy(alloc)?,
            ended: self.ended,
        })
    }
}
