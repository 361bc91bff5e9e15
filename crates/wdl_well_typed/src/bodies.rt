//! Bodies of workflows, whose statements stand in dependency order.

ghost use Rattle.std.specs.Prelude.{◌≡◌, IfOk, IsSome, option_map};
ghost use Rattle.wdl_typed.specs.Bodies as bodies;
ghost use Rattle.wdl_well_typed.specs.Blocks as spec;
ghost use Rattle.wdl_well_typed.specs.Calls.{library_of};
ghost use Rattle.wdl_well_typed.specs.Given as state;

use crate::calls::{Library, call_gives};
use crate::given::{BodyScope, YieldedTypes, arrays, optionals};
use sqlite_items::Items;
use std::alloc::Global;
use wdl_typed::{Statement, TDecl, TExpr};
use wdl_typing::{Standing, body_type, decl_is_typed, enter};
use wdl_value::{Name, NoMemory, Ty, is_bool};

/// The name of a declaration.
fn declared(alloc: Global, d: &TDecl) -> Result<YieldedTypes, NoMemory>
    ensures { IfOk result (λ g. state.given g ≡ spec.declared d.now) }
{
    Ok(YieldedTypes {
        names: given_types::declared(alloc, d)?,
        calls: Items::new(alloc),
    })
}

fn decl_gives(
    alloc: Global,
    d: &TDecl,
    library: &Library,
    scope: &BodyScope,
) -> Result<Option<YieldedTypes>, NoMemory>
    ensures { IfOk result (λ g. option_map state.given g ≡ bodies.decl_step library.now.structs d.now (state.seen scope.now)) }
{
    if !decl_is_typed(alloc, Standing::Body, d, &library.structs, &scope.names)? {
        return Ok(None);
    }
    Ok(Some(declared(alloc, d)?))
}

/// The item type of the array over which a scatter goes, and whether the array has `+`.
fn items_of(
    alloc: Global,
    over: &TExpr,
    library: &Library,
    scope: &BodyScope,
) -> Result<Option<(Ty, bool)>, NoMemory>
    ensures { IfOk result (λ t. t ≡ spec.items_of library.now.structs scope.now.names over.now) }
{
    match body_type(alloc, over, &library.structs, &scope.names)? {
        Some(Ty::Array { item, some }) => Ok(Some((item.into_inner(), some))),
        _ => Ok(None),
    }
}

/// Whether the condition is a Boolean.
fn is_condition(
    alloc: Global,
    e: &TExpr,
    library: &Library,
    scope: &BodyScope,
) -> Result<bool, NoMemory>
    ensures { IfOk result (λ b. b ≡ spec.is_condition library.now.structs scope.now.names e.now) }
{
    match body_type(alloc, e, &library.structs, &scope.names)? {
        Some(t) => Ok(is_bool(&t)),
        None => Ok(false),
    }
}

/// What a statement gives out, if it is well typed where this is seen.
#[cycle(gives)]
fn statement_gives(
    alloc: Global,
    statement: &Statement,
    library: &Library,
    scope: &mut BodyScope,
) -> Result<Option<YieldedTypes>, NoMemory>
    ensures gives { IfOk result (λ g. option_map state.given g ≡ bodies.gives (library_of library.now) statement.now (state.seen scope.old)) }
    ensures kept { IfOk result (λ g. IsSome g → state.seen scope.new ≡ state.seen scope.old) }
{
    match statement {
        Statement::Decl(d) => decl_gives(alloc, d, library, scope),
        Statement::Call(c) => call_gives(alloc, c, library, scope),
        Statement::Scatter(s) => {
            scatter_gives(alloc, s.body.as_slice(), &s.item, &s.over, library, scope)
        }
        Statement::If(i) => if_gives(alloc, i.body.as_slice(), &i.cond, library, scope),
    }
}

/// Outside a scatter a name is an array, with `+` where the collection has it. Its item is seen in
/// the body alone.
#[cycle(gives)]
fn scatter_gives(
    alloc: Global,
    body: &[Statement],
    item: &Name,
    over: &TExpr,
    library: &Library,
    scope: &mut BodyScope,
) -> Result<Option<YieldedTypes>, NoMemory>
    ensures gives { IfOk result (λ g. option_map state.given g ≡ spec.scatter_gives (library_of library.now) body.now item.now over.now (state.seen scope.old)) }
    ensures kept { IfOk result (λ g. IsSome g → state.seen scope.new ≡ state.seen scope.old) }
{
    let Some((ty, some)) = items_of(alloc, over, library, scope)? else {
        return Ok(None);
    };
    let count = scope.names.len();
    enter(alloc, &mut scope.names, item, &ty)?;
    let given = body_gives(alloc, body, library, scope)?;
    scope.names.keep(count);
    match given {
        Some(given) => Ok(Some(arrays(alloc, given, some)?)),
        None => Ok(None),
    }
}

/// Outside a condition a name is optional.
#[cycle(gives)]
fn if_gives(
    alloc: Global,
    body: &[Statement],
    cond: &TExpr,
    library: &Library,
    scope: &mut BodyScope,
) -> Result<Option<YieldedTypes>, NoMemory>
    ensures gives { IfOk result (λ g. option_map state.given g ≡ spec.if_gives (library_of library.now) body.now cond.now (state.seen scope.old)) }
    ensures kept { IfOk result (λ g. IsSome g → state.seen scope.new ≡ state.seen scope.old) }
{
    if !is_condition(alloc, cond, library, scope)? {
        return Ok(None);
    }
    match body_gives(alloc, body, library, scope)? {
        Some(given) => Ok(Some(optionals(alloc, given)?)),
        None => Ok(None),
    }
}

/// What the statements of a body give out together, if they are well typed where this is seen.
#[cycle(gives)]
pub fn body_gives(
    alloc: Global,
    body: &[Statement],
    library: &Library,
    scope: &mut BodyScope,
) -> Result<Option<YieldedTypes>, NoMemory>
    ensures gives { IfOk result (λ g. option_map state.given g ≡ bodies.body_gives (library_of library.now) body.now (state.seen scope.old)) }
    ensures kept { IfOk result (λ g. IsSome g → state.seen scope.new ≡ state.seen scope.old) }
{
    let names = scope.names.len();
    let calls = scope.calls.len();
    let mut given = YieldedTypes::empty(alloc);
    for statement in body {
        let Some(more) = statement_gives(alloc, statement, library, scope)? else {
            return Ok(None);
        };
        scope.enter(alloc, &more)?;
        given.append(more)?;
    }
    scope.keep(names, calls);
    Ok(Some(given))
}
