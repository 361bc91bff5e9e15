//! The references of a body that come from outside its block.

ghost use Rattle.std.specs.Prelude.{◌≡◌, ◌++◌, ◌∷◌, [], IfOk, OnOk};
ghost use Rattle.wdl_typed.specs.Declarations.{plain_key as spec_key};
ghost use Rattle.wdl_typed.specs.Scope.{is_among};
ghost use Rattle.cwl_image.specs.Image as image;
ghost use Rattle.cwl_flow.specs.Drafts as draft;

use crate::context::Context;
use crate::links::body_links;
use cwl_tool::reference;
use std::alloc::Global;
use wdl_names::Index;
use wdl_typed::{Statement, TExpr, TField};
use wdl_value::{Items, Key, Name, NoMemory};

fn has(keys: &Index<Key>, key: &Key) -> bool
    ensures { result ≡ is_among key.now keys.now }
{
    match keys.find(key) {
        Some(_) => true,
        None => false,
    }
}

/// Adds the reference of an expression that is one.
fn add_reference(alloc: Global, expr: &TExpr, uses: &mut Items<Key>) -> Result<(), NoMemory>
    ensures { OnOk result (uses.new ≡ uses.old ++ image.option_list (image.reference expr.now)) }
{
    if let Some(key) = reference(expr) {
        uses.push(key.copy(alloc)?)?;
    }
    Ok(())
}

fn add_args(alloc: Global, args: &[TField<TExpr>], uses: &mut Items<Key>) -> Result<(), NoMemory>
    ensures { OnOk result (uses.new ≡ uses.old ++ image.args_used args.now) }
{
    for arg in args {
        add_reference(alloc, &arg.value, uses)?;
    }
    Ok(())
}

/// The references without those that come from inside.
fn without(alloc: Global, inside: &Index<Key>, keys: &[Key]) -> Result<Items<Key>, NoMemory>
    ensures { IfOk result (λ ks. ks ≡ image.without inside.now keys.now) }
{
    let mut outer = Items::new(alloc);
    for key in keys {
        if !has(inside, key) {
            outer.push(key.copy(alloc)?)?;
        }
    }
    Ok(outer)
}

/// What a body gives besides items.
fn add_inside<'a>(
    alloc: Global,
    body: &[Statement],
    context: &Context<'a>,
    mut inside: Index<Key>,
) -> Result<Index<Key>, NoMemory>
    ensures { IfOk result (λ ks. ks ≡ inside ++ image.keys_of (image.body_links (draft.drafts_of context.now body.now))) }
{
    let links = body_links(alloc, body, context)?;
    for link in links.as_slice() {
        inside.push(link.key.copy(alloc)?)?;
    }
    Ok(inside)
}

/// An item alone.
pub fn only(alloc: Global, item: &Name) -> Result<Index<Key>, NoMemory>
    ensures { IfOk result (λ ks. ks ≡ spec_key item.now ∷ []) }
{
    let mut keys = Index::empty(alloc);
    keys.push(Key::plain(alloc, item)?)?;
    Ok(keys)
}

/// Adds what a statement uses.
#[cycle(uses)]
fn add_uses<'a>(
    alloc: Global,
    statement: &Statement,
    context: &Context<'a>,
    uses: &mut Items<Key>,
) -> Result<(), NoMemory>
    ensures { OnOk result (uses.new ≡ uses.old ++ draft.uses_of (draft.draft_of context.now statement.now)) }
{
    match statement {
        Statement::Decl(_) => Ok(()),
        Statement::Call(call) => add_args(alloc, call.args.as_slice(), uses),
        Statement::Scatter(scatter) => {
            add_reference(alloc, &scatter.over, uses)?;
            let item = only(alloc, &scatter.item)?;
            add_outside(alloc, scatter.body.as_slice(), context, item, uses)
        }
        Statement::If(condition) => {
            add_reference(alloc, &condition.cond, uses)?;
            let none = Index::empty(alloc);
            add_outside(alloc, condition.body.as_slice(), context, none, uses)
        }
    }
}

#[cycle(uses)]
fn add_outside<'a>(
    alloc: Global,
    body: &[Statement],
    context: &Context<'a>,
    items: Index<Key>,
    uses: &mut Items<Key>,
) -> Result<(), NoMemory>
    ensures { OnOk result (uses.new ≡ uses.old ++ draft.used_outside items (draft.drafts_of context.now body.now)) }
{
    let outer = used_outside(alloc, body, context, items)?;
    uses.append(outer)?;
    Ok(())
}

/// What a body uses of what is outside its block, each use of it. The items come from inside, as
/// what the body gives does.
#[cycle(uses)]
fn used_outside<'a>(
    alloc: Global,
    body: &[Statement],
    context: &Context<'a>,
    items: Index<Key>,
) -> Result<Items<Key>, NoMemory>
    ensures { IfOk result (λ ks. ks ≡ draft.used_outside items (draft.drafts_of context.now body.now)) }
{
    let inside = add_inside(alloc, body, context, items)?;
    let mut uses = Items::new(alloc);
    for statement in body {
        add_uses(alloc, statement, context, &mut uses)?;
    }
    without(alloc, &inside, uses.as_slice())
}

/// Each reference at its first use.
fn firsts(alloc: Global, keys: &[Key]) -> Result<Index<Key>, NoMemory>
    ensures { IfOk result (λ ks. ks ≡ image.firsts [] keys.now) }
{
    let mut firsts = Index::empty(alloc);
    for key in keys {
        if !has(&firsts, key) {
            firsts.push(key.copy(alloc)?)?;
        }
    }
    Ok(firsts)
}

/// The references of a body that come from outside its block, in order of first use.
pub fn outer_uses<'a>(
    alloc: Global,
    body: &[Statement],
    context: &Context<'a>,
    items: Index<Key>,
) -> Result<Index<Key>, NoMemory>
    ensures { IfOk result (λ ks. ks ≡ image.outer_uses items (draft.drafts_of context.now body.now)) }
{
    let uses = used_outside(alloc, body, context, items)?;
    firsts(alloc, uses.as_slice())
}
