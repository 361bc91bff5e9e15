//! The names of an expression, and their values.

ghost use Rattle.std.specs.Prelude.{◌≡◌, [], map, OnOk, IfOk};
ghost use Rattle.std.specs.List.{list_all};
ghost use Rattle.wdl_typed.specs.Flow as flow;
ghost use Rattle.wdl_typed.specs.Scope.{names_of};
ghost use Rattle.wdl_plain.specs.Referring as spec;
ghost use Rattle.wdl_plain.specs.Views.{knowns_of};

use crate::known_names::KnownNames;
use references::expression_names;
use std::alloc::Global;
use wdl_eval::lookup;
use wdl_typed::TExpr;
use wdl_value::{Bind, Env, Items, Key, NoMemory};

fn is_known(key: &Key, names: &KnownNames) -> bool
    ensures { result ≡ flow.is_known (knowns_of names.now) key.now }
{
    match names.lookup(key) {
        Some(_) => true,
        None => false,
    }
}

fn are_known(keys: &[&Key], names: &KnownNames) -> bool
    ensures { result ≡ list_all (flow.is_known (knowns_of names.now)) (map (λ k. k.now) keys.now) }
{
    for key in keys {
        if !is_known(key, names) {
            return false;
        }
    }
    true
}

/// Whether all names of an expression have a value.
pub fn may_evaluate(alloc: Global, e: &TExpr, names: &KnownNames) -> Result<bool, NoMemory>
    ensures { IfOk result (λ b. b ≡ flow.all_known (knowns_of names.now) e.now) }
{
    let keys = expression_names(alloc, e)?;
    Ok(are_known(keys.as_slice(), names))
}

/// Adds a name with its value, where it has one and is not there yet.
fn pick(alloc: Global, key: &Key, names: &KnownNames, env: &mut Env) -> Result<(), NoMemory>
    ensures { OnOk result (env.new ≡ spec.pick names.now env.old key.now) }
{
    if lookup(env.as_slice(), key).is_some() {
        return Ok(());
    }
    let Some(value) = names.lookup(key) else {
        return Ok(());
    };
    let key = key.copy(alloc)?;
    let value = value.copy(alloc)?;
    env.push(Bind { key, value })?;
    Ok(())
}

fn pick_all(alloc: Global, keys: &[&Key], names: &KnownNames, env: &mut Env) -> Result<(), NoMemory>
    ensures { OnOk result (env.new ≡ spec.picks names.now env.old (map (λ k. k.now) keys.now)) }
{
    for key in keys {
        pick(alloc, key, names, env)?;
    }
    Ok(())
}

/// The names of an expression with their values: each once, those without a value left out.
pub fn names_with_values(alloc: Global, e: &TExpr, names: &KnownNames) -> Result<Env, NoMemory>
    ensures { IfOk result (λ env. env ≡ spec.picks names.now [] (names_of e.now)) }
{
    let keys = expression_names(alloc, e)?;
    let mut env = Items::new(alloc);
    pick_all(alloc, keys.as_slice(), names, &mut env)?;
    Ok(env)
}
