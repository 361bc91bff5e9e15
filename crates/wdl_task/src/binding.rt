//! Names with their values.

ghost use Rattle.std.specs.Prelude.{◌≡◌, ◌++◌, ◌∷◌, [], IfOk};
ghost use Rattle.wdl_typed.specs.Requests as spec;

use std::alloc::Global;
use wdl_value::{Bind, Env, Name, NoMemory, Value};

/// The names with one more.
pub fn with_bind(alloc: Global, mut env: Env, name: &Name, value: Value) -> Result<Env, NoMemory>
    ensures { IfOk result (λ e. e ≡ env ++ spec.bind name.now value ∷ []) }
{
    env.push(Bind::plain(alloc, name, value)?)?;
    Ok(env)
}
