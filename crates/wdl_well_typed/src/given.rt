//! What statements see, and what they give out.

ghost use Rattle.std.specs.Prelude.{◌≡◌, ◌++◌, IfOk, OnOk};
ghost use Rattle.wdl_typed.specs.Bodies as bodies;
ghost use Rattle.wdl_well_typed.specs.Given as spec;
ghost use Rattle.wdl_value.specs.declared.ty.Ty.TheVariants as ty;

use given_types::enter_names;
use sqlite_items::Items;
use std::alloc::Global;
use wdl_names::{NameStack, TypedNames};
use wdl_typed::Bound;
use wdl_value::{Name, NoMemory};

/// Names with their types, and calls, which statements give out.
#[derive(Debug, Drop)]
pub struct YieldedTypes {
    pub names: Items<Bound>,
    pub calls: Items<Name>,
}

/// The names with their types, and the calls, which a statement sees.
#[derive(Debug, Drop)]
pub struct BodyScope {
    pub names: TypedNames,
    pub calls: NameStack,
}

fn enter_calls(alloc: Global, calls: &mut NameStack, names: &[Name]) -> Result<(), NoMemory>
    ensures { OnOk result (calls.new ≡ calls.old ++ names.now) }
{
    for name in names {
        calls.enter(name.copy(alloc)?)?;
    }
    Ok(())
}

impl BodyScope {
    /// Adds what a statement gives out.
    pub fn enter(&mut self, alloc: Global, given: &YieldedTypes) -> Result<(), NoMemory>
        ensures { OnOk result (spec.seen self.new ≡ bodies.joined (spec.seen self.old) (spec.given given.now)) }
    {
        enter_names(alloc, &mut self.names, given.names.as_slice())?;
        enter_calls(alloc, &mut self.calls, given.calls.as_slice())
    }

    /// Takes the last names and calls away until there are at most so many.
    pub fn keep(&mut self, names: usize, calls: usize)
        ensures { spec.seen self.new ≡ spec.first names calls (spec.seen self.old) }
    {
        self.names.keep(names);
        self.calls.keep(calls);
    }
}

impl YieldedTypes {
    /// Nothing.
    pub fn empty(alloc: Global) -> YieldedTypes
        ensures { spec.given result ≡ spec.nothing }
    {
        YieldedTypes {
            names: Items::new(alloc),
            calls: Items::new(alloc),
        }
    }

    /// Adds what a statement gives out after these.
    pub fn append(&mut self, more: YieldedTypes) -> Result<(), NoMemory>
        ensures { OnOk result (spec.given self.new ≡ bodies.joined (spec.given self.old) (spec.given more)) }
    {
        let YieldedTypes { names, calls } = more;
        self.names.append(names)?;
        self.calls.append(calls)?;
        Ok(())
    }
}

/// What a scatter gives out, given what its body does: arrays, with `+` where the collection has
/// it.
pub fn arrays(alloc: Global, given: YieldedTypes, some: bool) -> Result<YieldedTypes, NoMemory>
    ensures { IfOk result (λ g. spec.given g ≡ bodies.retyped (λ u. ty.Array u some) (spec.given given)) }
{
    let names = given_types::arrays(alloc, given.names.as_slice(), some)?;
    Ok(YieldedTypes {
        names,
        calls: given.calls,
    })
}

/// What a condition gives out, given what its body does: names that may be undefined.
pub fn optionals(alloc: Global, given: YieldedTypes) -> Result<YieldedTypes, NoMemory>
    ensures { IfOk result (λ g. spec.given g ≡ bodies.retyped bodies.optional (spec.given given)) }
{
    let names = given_types::optionals(alloc, given.names.as_slice())?;
    Ok(YieldedTypes {
        names,
        calls: given.calls,
    })
}
