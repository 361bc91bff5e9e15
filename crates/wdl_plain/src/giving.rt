//! Names and calls that are given out without their statements being run.

ghost use Rattle.std.specs.Prelude.{◌≡◌, IfOk};
ghost use Rattle.wdl_typed.specs.Flow as flow;
ghost use Rattle.wdl_flow.specs.Views.{given_of};
ghost use Rattle.wdl_plain.specs.Views.{endeds_of, flowing_of, knowns_of};

use crate::flowing::Flowing;
use crate::known::{Ended, Known, copy_value};
use std::alloc::Global;
use wdl_flow::Yielded;
use wdl_value::{Items, Key, Name, NoMemory, Value};

/// Each name with this value, or missing, and each call ended or not.
pub fn giving(
    alloc: Global,
    names: Yielded,
    value: &Option<Value>,
    ended: bool,
) -> Result<Flowing, NoMemory>
    ensures { IfOk result (λ f. flowing_of f ≡ flow.giving value.now ended (given_of names)) }
{
    let mut given = Flowing::counted(alloc, 0);
    given.names = each_key(alloc, value, names.keys.as_slice())?;
    given.calls = each_call(alloc, ended, names.calls.as_slice())?;
    Ok(given)
}

/// Each name missing, and no call ended.
pub fn missing(alloc: Global, names: Yielded) -> Result<Flowing, NoMemory>
    ensures { IfOk result (λ f. flowing_of f ≡ flow.missing (given_of names)) }
{
    giving(alloc, names, &None, false)
}

fn with_value(alloc: Global, key: &Key, value: &Option<Value>) -> Result<Known, NoMemory>
    ensures { IfOk result (λ k. k ≡ record { key = key.now; value = value.now }) }
{
    let key = key.copy(alloc)?;
    let value = copy_value(alloc, value)?;
    Ok(Known { key, value })
}

fn each_key(alloc: Global, value: &Option<Value>, keys: &[Key]) -> Result<Items<Known>, NoMemory>
    ensures { IfOk result (λ ks. knowns_of ks ≡ flow.each_key value.now keys.now) }
{
    let mut knowns = Items::new(alloc);
    for key in keys {
        knowns.push(with_value(alloc, key, value)?)?;
    }
    Ok(knowns)
}

/// The call, and whether it has ended.
pub fn ended_as(alloc: Global, call: &Name, ended: bool) -> Result<Ended, NoMemory>
    ensures { IfOk result (λ e. e ≡ record { call = call.now; ended = ended }) }
{
    let call = call.copy(alloc)?;
    Ok(Ended { call, ended })
}

fn each_call(alloc: Global, ended: bool, calls: &[Name]) -> Result<Items<Ended>, NoMemory>
    ensures { IfOk result (λ es. endeds_of es ≡ flow.each_call ended calls.now) }
{
    let mut ends = Items::new(alloc);
    for call in calls {
        ends.push(ended_as(alloc, call, ended)?)?;
    }
    Ok(ends)
}
