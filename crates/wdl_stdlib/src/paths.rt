//! `basename`, `stdout` and `stderr`.

ghost use Rattle.std.specs.Prelude.{◌≡◌, false, IfOk};
ghost use Rattle.wdl_value.specs.Paths as spec;
ghost use Rattle.wdl_base.specs.Plain.{has_nul};
ghost use Rattle.wdl_stdlib.specs.Gives.{Gives};

use crate::fault::EvalFault;
use crate::parts::text_in;
use std::alloc::Global;
use wdl_value::{NoMemory, Text, Value};

/// What follows the last slash.
fn base_name(path: &str) -> &str
    requires { has_nul path.now ≡ false }
    ensures value { result.now ≡ spec.base_name path.now }
    ensures plain { has_nul result.now ≡ false }
{
    let mut rest = path;
    while let Some((_before, after)) = rest.split_once('/') {
        rest = after;
    }
    rest
}

/// The name without the ending, where it is there.
fn without_ending<'a>(name: &'a str, ending: &str) -> &'a str
    requires { has_nul name.now ≡ false }
    ensures value { result.now ≡ spec.without_ending name.now ending.now }
    ensures plain { has_nul result.now ≡ false }
{
    match name.strip_suffix(ending) {
        Some(rest) => rest,
        None => name,
    }
}

/// What stands behind the last `/` of a path.
pub fn basename(alloc: Global, path: &Value) -> Result<Value, EvalFault>
    ensures { Gives (spec.basename_of path.now) result }
{
    let path = text_in(alloc, path)?;
    Ok(Value::Str(Text::from_plain(alloc, base_name(path.as_str()))?))
}

/// The same without the ending, where it ends so.
pub fn basename_without(alloc: Global, path: &Value, ending: &Value) -> Result<Value, EvalFault>
    ensures { Gives (spec.basename_without path.now ending.now) result }
{
    let path = text_in(alloc, path)?;
    let ending = text_in(alloc, ending)?;
    let name = without_ending(base_name(path.as_str()), ending.as_str());
    Ok(Value::Str(Text::from_plain(alloc, name)?))
}

/// A file below the directory of the job.
pub fn in_directory(alloc: Global, dir: &Text, name: &str) -> Result<Value, NoMemory>
    requires { has_nul name.now ≡ false }
    ensures { IfOk result (λ x. x ≡ spec.in_directory dir.now name.now) }
{
    let mut path = dir.copy(alloc)?;
    path.push_ascii(b'/')?;
    path.push_str(name)?;
    Ok(Value::File(path))
}

/// The path of the standard output in the directory of the job.
pub fn stdout(alloc: Global, dir: &Text) -> Result<Value, EvalFault>
    ensures { Gives (spec.stdout_of dir.now) result }
{
    Ok(in_directory(alloc, dir, "_stdout")?)
}

/// The path of the standard error in the directory of the job.
pub fn stderr(alloc: Global, dir: &Text) -> Result<Value, EvalFault>
    ensures { Gives (spec.stderr_of dir.now) result }
{
    Ok(in_directory(alloc, dir, "_stderr")?)
}
