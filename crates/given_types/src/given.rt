//! The names that statements give out, with their types.

ghost use Rattle.std.specs.Prelude.{◌≡◌, ◌++◌, ◌∷◌, [], IfOk, OnOk, map};
ghost use Rattle.wdl_typed.specs.Bodies as bodies;
ghost use Rattle.wdl_typed.specs.Declarations.{bound};
ghost use Rattle.wdl_value.specs.declared.ty.Ty.TheVariants as ty;
ghost use Rattle.given_types.specs.Types as spec;

use sqlite_items::Items;
use std::alloc::Global;
use wdl_names::TypedNames;
use wdl_typed::{Bound, TDecl};
use wdl_value::{Key, Name, NoMemory, Ty};

fn copy_of(alloc: Global, bound: &Bound) -> Result<Bound, NoMemory>
    ensures { IfOk result (λ b. b ≡ bound.now) }
{
    let key = bound.key.copy(alloc)?;
    Ok(Bound {
        key,
        ty: bound.ty.copy(alloc)?,
    })
}

/// The name of a declaration.
pub fn declared(alloc: Global, d: &TDecl) -> Result<Items<Bound>, NoMemory>
    ensures { IfOk result (λ bs. bs ≡ bound d.now.name d.now.ty ∷ []) }
{
    let key = Key::plain(alloc, &d.name)?;
    let ty = d.ty.copy(alloc)?;
    let mut names = Items::new(alloc);
    names.push(Bound { key, ty })?;
    Ok(names)
}

/// Adds names.
pub fn enter_names(alloc: Global, names: &mut TypedNames, bounds: &[Bound]) -> Result<(), NoMemory>
    ensures { OnOk result (names.new ≡ names.old ++ bounds.now) }
{
    for bound in bounds {
        names.enter(copy_of(alloc, bound)?)?;
    }
    Ok(())
}

/// The names as arrays, with `+` where `some` says so.
pub fn arrays(alloc: Global, names: &[Bound], some: bool) -> Result<Items<Bound>, NoMemory>
    ensures { IfOk result (λ bs. bs ≡ spec.retyped_names (λ u. ty.Array u some) names.now) }
{
    let mut arrays = Items::new(alloc);
    for bound in names {
        let key = bound.key.copy(alloc)?;
        let ty = Ty::array_of(alloc, bound.ty.copy(alloc)?, some)?;
        arrays.push(Bound { key, ty })?;
    }
    Ok(arrays)
}

/// The names as optional ones.
pub fn optionals(alloc: Global, names: &[Bound]) -> Result<Items<Bound>, NoMemory>
    ensures { IfOk result (λ bs. bs ≡ spec.retyped_names bodies.optional names.now) }
{
    let mut optionals = Items::new(alloc);
    for bound in names {
        let key = bound.key.copy(alloc)?;
        let ty = Ty::optional_of(alloc, bound.ty.copy(alloc)?)?;
        optionals.push(Bound { key, ty })?;
    }
    Ok(optionals)
}

fn output_of(alloc: Global, call: &Name, output: &TDecl) -> Result<Bound, NoMemory>
    ensures { IfOk result (λ b. b ≡ bodies.output_bound call.now output.now) }
{
    let first = call.copy(alloc)?;
    let second = output.name.copy(alloc)?;
    let ty = output.ty.copy(alloc)?;
    Ok(Bound {
        key: Key {
            first,
            second: Some(second),
        },
        ty,
    })
}

/// The outputs of a call.
pub fn outputs_of(alloc: Global, call: &Name, outputs: &[TDecl]) -> Result<Items<Bound>, NoMemory>
    ensures { IfOk result (λ bs. bs ≡ map (bodies.output_bound call.now) outputs.now) }
{
    let mut names = Items::new(alloc);
    for output in outputs {
        names.push(output_of(alloc, call, output)?)?;
    }
    Ok(names)
}
