//! Functions that write files (OpenWDL 1.1, "File Parsing"): what they lay down, and their value.

ghost use Rattle.std.specs.Prelude.{◌≡◌, ◌+◌, IfOk};
ghost use Rattle.wdl_stdlib.specs.Gives.{Gives};
ghost use Rattle.wdl_typed.specs.Evaluation.{value_of};
ghost use Rattle.wdl_typed.specs.Requests as spec;
ghost use Rattle.wdl_typed.specs.Requests.{before};
ghost use Rattle.wdl_eval.specs.Ready.{IsReady};
ghost use Rattle.wdl_task.specs.Calls as calls;
ghost use Rattle.wdl_task.specs.Readiness.{IsPlacedReady};
ghost use Rattle.wdl_task.specs.Views.{GivesAs, laying_of};

use crate::valued::value_before;
use std::alloc::Global;
use std::sync::ledger::Ledger;
use wdl_eval::EvalFault;
use wdl_files::{WRITTEN_BYTES, WrittenFault, written_name, written_text};
use wdl_typed::TExpr;
use wdl_value::{CastFault, Env, EvalCode, Func, Items, Laid, Steps, Text, Ty, Value, cast};

/// A value, and the files that are laid down so far.
#[derive(Drop)]
pub struct Laying {
    pub value: Value,
    pub files: Items<Laid>,
}

/// The bytes of the names and the bodies, or the greatest number.
fn laid_size(files: &[Laid]) -> u64
    ensures { result ≡ calls.laid_bytes files.now }
{
    let mut total: u64 = 0;
    for file in files {
        total = total
            .saturating_add(file.name.as_str().len() as u64)
            .saturating_add(file.body.as_str().len() as u64);
    }
    total
}

/// The function that writes a file and its argument, where the expression is a call of a function
/// that writes a file, casts aside.
#[tactic(auto, using(crate::proofs::CallOut::call_steps))]
fn call_in(e: &TExpr) -> Option<(Func, &TExpr)>
    ensures { calls.IsCall (calls.call_of e.now) result }
{
    match e {
        TExpr::Apply(f, args) if f.writes() => match args.as_slice() {
            [argument, ..] => Some((*f, argument)),
            [] => None,
        },
        TExpr::Cast(a, _) => call_in(a.get()),
        _ => None,
    }
}

fn cast_value(alloc: Global, value: &Value, t: &Ty) -> Result<Value, EvalFault>
    ensures { Gives (calls.cast_value value.now t.now) result }
{
    match cast(alloc, value, t) {
        Ok(value) => Ok(value),
        Err(CastFault::EmptyArray) => Err(EvalFault::Code(EvalCode::EmptyArray)),
        Err(CastFault::NoMemory) => Err(EvalFault::NoMemory),
    }
}

/// The name of a written file as a value, under the casts round the call.
fn cast_name(alloc: Global, e: &TExpr, name: &Text) -> Result<Value, EvalFault>
    ensures { Gives (calls.cast_name e.now name.now) result }
{
    match e {
        TExpr::Cast(a, t) => cast_value(alloc, &cast_name(alloc, a.get(), name)?, t),
        _ => Ok(Value::File(name.copy(alloc)?)),
    }
}

/// The files with what the function writes of the value, under the next name.
fn with_file(
    alloc: Global,
    mut files: Items<Laid>,
    f: Func,
    value: &Value,
) -> Result<Items<Laid>, EvalFault>
    requires laid { calls.AreLaid files }
    ensures value { Gives (calls.with_file f value.now files) result }
    ensures laid { IfOk result calls.AreLaid }
{
    let name = written_name(alloc, files.len() as u32)?;
    let body = match written_text(alloc, f, value) {
        Ok(text) => text,
        Err(WrittenFault::TooLarge) => return Err(EvalFault::Code(EvalCode::TooLarge)),
        Err(WrittenFault::NoMemory) => return Err(EvalFault::NoMemory),
    };
    files.push(Laid { name, body })?;
    if laid_size(files.as_slice()) > WRITTEN_BYTES as u64 {
        return Err(EvalFault::Code(EvalCode::TooLarge));
    }
    Ok(files)
}

/// The name of a written file as a value, beside the files.
fn with_name(alloc: Global, e: &TExpr, name: &Text, files: Items<Laid>) -> Result<Laying, EvalFault>
    ensures { GivesAs laying_of (calls.named_value e.now name.now files) result }
{
    let value = cast_name(alloc, e, name)?;
    Ok(Laying { value, files })
}

/// The files with what the function writes of the value, and the name of the new one as a value.
fn stored(
    alloc: Global,
    e: &TExpr,
    f: Func,
    value: &Value,
    files: Items<Laid>,
) -> Result<Laying, EvalFault>
    requires laid { calls.AreLaid files }
    ensures value { GivesAs laying_of (calls.stored_value e.now f value.now files) result }
    ensures laid { IfOk result (λ l. calls.AreLaid l.files) }
{
    let name = written_name(alloc, files.len() as u32)?;
    let files = with_file(alloc, files, f, value)?;
    with_name(alloc, e, &name, files)
}

/// The value of a call of a function that writes a file: the file is laid down, and its name is the
/// value.
fn laid<L: Ledger>(
    alloc: Global,
    e: &TExpr,
    call: (Func, &TExpr),
    env: &Env,
    files: Items<Laid>,
    steps: &mut Steps<L>,
) -> Result<Laying, EvalFault>
    requires ready { IsReady call.1.now env.now }
    requires laid { calls.AreLaid files }
    ensures value { GivesAs laying_of (calls.laid_value env.now files e.now (record { func = call.entry.0; argument = call.entry.1.now })) result }
    ensures laid { IfOk result (λ l. calls.AreLaid l.files) }
    ensures steps { steps.new ≡ steps.old + 1 }
{
    let (f, argument) = call;
    let value = value_before(alloc, argument, env, steps)?;
    stored(alloc, e, f, &value, files)
}

/// The value of an expression that is no such call.
fn plain<L: Ledger>(
    alloc: Global,
    e: &TExpr,
    env: &Env,
    files: Items<Laid>,
    steps: &mut Steps<L>,
) -> Result<Laying, EvalFault>
    requires ready { IsReady e.now env.now }
    requires laid { calls.AreLaid files }
    ensures value { GivesAs laying_of (spec.as_laying files (value_of (before env.now) e.now)) result }
    ensures laid { IfOk result (λ l. calls.AreLaid l.files) }
    ensures steps { steps.new ≡ steps.old + 1 }
{
    let value = value_before(alloc, e, env, steps)?;
    Ok(Laying { value, files })
}

/// The value of an expression that may be, as a whole, a call of a function that writes a file.
pub fn placed_value<L: Ledger>(
    alloc: Global,
    e: &TExpr,
    env: &Env,
    files: Items<Laid>,
    steps: &mut Steps<L>,
) -> Result<Laying, EvalFault>
    requires ready { IsPlacedReady e.now env.now }
    requires laid { calls.AreLaid files }
    ensures value { GivesAs laying_of (spec.placed_value env.now files e.now) result }
    ensures laid { IfOk result (λ l. calls.AreLaid l.files) }
    ensures steps { steps.new ≡ steps.old + 1 }
{
    match call_in(e) {
        Some(call) => laid(alloc, e, call, env, files, steps),
        None => plain(alloc, e, env, files, steps),
    }
}
