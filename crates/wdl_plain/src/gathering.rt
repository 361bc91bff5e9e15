//! What a scatter gives out, of what its body gives for each item (OpenWDL 1.1, "Scatter").

ghost use Rattle.std.specs.Prelude.{◌≡◌, ◌∷◌, ◌++◌, [], List, IfOk, map, Some, false, true};
ghost use Rattle.wdl_value.specs.declared.value.Value.TheVariants as value;
ghost use Rattle.wdl_typed.specs.Flow as flow;
ghost use Rattle.wdl_typed.specs.Scope.{lookup};
ghost use Rattle.wdl_plain.specs.Gathers.{IsGathered};
ghost use Rattle.wdl_plain.specs.Gathered as spec;
ghost use Rattle.wdl_plain.specs.Flows.{quiet};
ghost use Rattle.wdl_plain.specs.declared.fault.PlainFault.TheVariants.{TooMany as PastLimits};
ghost use Rattle.wdl_flow.specs.Views.{given_of};
ghost use Rattle.wdl_plain.specs.Views.{endeds_of, flowing_of, known_of, knowns_of};

use crate::calls::Calls;
use crate::fault::PlainFault;
use crate::flowing::Flowing;
use crate::giving::ended_as;
use crate::known::{Ended, Known};
use crate::known_names::KnownNames;
use std::alloc::Global;
use wdl_flow::Yielded;
use wdl_value::{Items, Key, Name, NoMemory, Value};

/// What the body gives for the items so far.
#[derive(Drop)]
pub struct Gathering {
    pub names: Items<KnownNames>,
    pub calls: Items<Calls>,
    pub total: Flowing,
}

/// The values of a name at all items, or none where it is missing at one.
fn values_of(
    alloc: Global,
    key: &Key,
    items: &[KnownNames],
) -> Result<Option<Items<Value>>, NoMemory>
    ensures { IfOk result (λ o. o ≡ spec.values_at items.now key.now) }
{
    let mut values = Items::new(alloc);
    for names in items {
        let Some(value) = names.lookup(key) else {
            return Ok(None);
        };
        values.push(value.copy(alloc)?)?;
    }
    Ok(Some(values))
}

fn gathered_name(alloc: Global, key: &Key, items: &[KnownNames]) -> Result<Known, NoMemory>
    ensures { IfOk result (λ k. known_of k ≡ spec.gathered_name items.now key.now) }
{
    let copy = key.copy(alloc)?;
    match values_of(alloc, key, items)? {
        Some(values) => Ok(Known {
            key: copy,
            value: Some(Value::List(values)),
        }),
        None => Ok(Known {
            key: copy,
            value: None,
        }),
    }
}

fn gathered_names(
    alloc: Global,
    keys: &[Key],
    items: &[KnownNames],
) -> Result<Items<Known>, NoMemory>
    ensures { IfOk result (λ ks. knowns_of ks ≡ map (spec.gathered_name items.now) keys.now) }
{
    let mut names = Items::new(alloc);
    for key in keys {
        names.push(gathered_name(alloc, key, items)?)?;
    }
    Ok(names)
}

fn have_all_ended(call: &Name, items: &[Calls]) -> bool
    ensures { result ≡ spec.have_all_ended items.now call.now }
{
    for calls in items {
        if !calls.has_ended(call) {
            return false;
        }
    }
    true
}

fn gathered_calls(alloc: Global, calls: &[Name], items: &[Calls]) -> Result<Items<Ended>, NoMemory>
    ensures { IfOk result (λ es. endeds_of es ≡ map (spec.gathered_call items.now) calls.now) }
{
    let mut ends = Items::new(alloc);
    for call in calls {
        ends.push(ended_as(alloc, call, have_all_ended(call, items))?)?;
    }
    Ok(ends)
}

impl Gathering {
    /// Nothing yet.
    pub fn empty(alloc: Global) -> Gathering
        ensures { IsGathered result [] }
    {
        Gathering {
            names: Items::new(alloc),
            calls: Items::new(alloc),
            total: Flowing::counted(alloc, 0),
        }
    }

    /// With what the body gives for one item more.
    pub fn with(self, alloc: Global, item: Flowing) -> Result<Gathering, PlainFault>
        requires first { flow.too_many (flowing_of self.total) ≡ false }
        requires second { flow.too_many (flowing_of item) ≡ false }
        ensures gathered { IfOk result (λ g. (fs : List flow.Flowing) → IsGathered self fs → IsGathered g (fs ++ flowing_of item ∷ [])) }
        ensures within { IfOk result (λ g. flow.too_many (flowing_of g.total) ≡ false) }
        ensures refused { result ≡ Err PastLimits → flow.too_many (flow.together (flowing_of self.total) (quiet (flowing_of item))) ≡ true }
    {
        let Gathering {
            mut names,
            mut calls,
            total,
        } = self;
        let Flowing {
            names: item_names,
            calls: item_calls,
            jobs,
            faults,
            waits,
            count,
        } = item;
        names.push(KnownNames::of(alloc, item_names)?)?;
        calls.push(Calls::of(alloc, item_calls)?)?;
        let total = total.and(Flowing {
            names: Items::new(alloc),
            calls: Items::new(alloc),
            jobs,
            faults,
            waits,
            count,
        })?;
        Ok(Gathering {
            names,
            calls,
            total,
        })
    }

    /// What the scatter gives out: a name is the list of its values, or missing if it is missing at
    /// one item.
    pub fn gathered(self, alloc: Global, given: &Yielded) -> Result<Flowing, NoMemory>
        ensures { (fs : List flow.Flowing) → IsGathered self fs → IfOk result (λ f. flowing_of f ≡ flow.gathered (given_of given.now) fs) }
    {
        let Gathering {
            names,
            calls,
            total,
        } = self;
        Ok(Flowing {
            names: gathered_names(alloc, given.keys.as_slice(), names.as_slice())?,
            calls: gathered_calls(alloc, given.calls.as_slice(), calls.as_slice())?,
            jobs: total.jobs,
            faults: total.faults,
            waits: total.waits,
            count: total.count,
        })
    }
}
