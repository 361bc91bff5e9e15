ghost use Rattle.std.specs.Prelude.{◌≡◌, None, IfOk};

use crate::value::Value;
use sqlite_items::Items;
use std::alloc::Global;
use wdl_base::{Key, Name, NoMemory};

/// A name with its value.
#[derive(Debug, Drop)]
pub struct Bind {
    pub key: Key,
    pub value: Value,
}

impl Bind {
    /// The plain name with the value.
    pub fn plain(alloc: Global, name: &Name, value: Value) -> Result<Bind, NoMemory>
        ensures { IfOk result (λ b. b ≡ record { key = record { first = name.now; second = None }; value = value }) }
    {
        let key = Key::plain(alloc, name)?;
        Ok(Bind { key, value })
    }

    /// A copy of the name and the value.
    pub fn copy(&self, alloc: Global) -> Result<Bind, NoMemory>
        ensures { IfOk result (λ b. b ≡ self.now) }
    {
        let key = self.key.copy(alloc)?;
        let value = self.value.copy(alloc)?;
        Ok(Bind { key, value })
    }
}

/// The values of names, whose keys are distinct.
pub type Env = Items<Bind>;

/// A copy of names with their values, in their order.
pub fn copy_env(alloc: Global, binds: &[Bind]) -> Result<Env, NoMemory>
    ensures { IfOk result (λ e. e ≡ binds.now) }
{
    let mut env = Items::new(alloc);
    for bind in binds {
        env.push(bind.copy(alloc)?)?;
    }
    Ok(env)
}
