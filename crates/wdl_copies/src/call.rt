//! Copies of calls, which name the tasks of the bundle.

ghost use Rattle.std.specs.Prelude.{◌≡◌, ◌++◌, ◌∷◌, [], option_map, IfOk, OnOk};
ghost use Rattle.std.specs.Option.{option_copied};
ghost use Rattle.wdl_check_rules.specs.Locals as local;
ghost use Rattle.wdl_copies.specs.Calls as spec;

use crate::keeping::put;
use crate::leaf::copy_ident;
use crate::sections::{copy_assigned, named_at};
use sqlite_items::Items;
use std::alloc::Global;
use wdl_ast::{After, Argument, Call, CallBody, CallInputs, CallTarget, Ident, ListItem, Renaming};
use wdl_check_rules::Local;
use wdl_names::Indexed;
use wdl_value::{Name, NoMemory};

/// The name that the target of a call ends with.
fn target_ident(target: &CallTarget) -> &Ident
    ensures { result.now ≡ spec.target_ident target.now }
{
    match &target.second {
        Some(member) => &member.name,
        None => &target.first,
    }
}

fn named_as(alloc: Global, ident: &Ident, name: Option<&Name>) -> Result<Ident, NoMemory>
    ensures { IfOk result (λ i. i ≡ spec.named_as ident.now (option_copied name.entry)) }
{
    match name {
        Some(name) => named_at(alloc, name, ident.span),
        None => copy_ident(alloc, ident),
    }
}

fn copy_target(
    alloc: Global,
    target: &CallTarget,
    name: Option<&Name>,
) -> Result<CallTarget, NoMemory>
    ensures { IfOk result (λ t. t ≡ spec.target_with (option_copied name.entry) target.now) }
{
    Ok(CallTarget {
        first: named_as(alloc, target_ident(target), name)?,
        second: None,
    })
}

fn copy_renaming(alloc: Global, renaming: &Renaming) -> Result<Renaming, NoMemory>
    ensures { IfOk result (λ r. r ≡ renaming.now) }
{
    Ok(Renaming {
        as_word: renaming.as_word,
        name: copy_ident(alloc, &renaming.name)?,
    })
}

fn differs(name: Option<&Name>, old: &Name) -> bool
    ensures { result ≡ spec.differs (option_copied name.entry) old.now }
{
    match name {
        Some(name) => !name.same(old),
        None => false,
    }
}

/// `as NAME` with the old name of a task, where that is no longer its name.
fn alias_for(
    alloc: Global,
    ident: &Ident,
    name: Option<&Name>,
) -> Result<Option<Renaming>, NoMemory>
    ensures { IfOk result (λ r. r ≡ spec.alias_for ident.now (spec.differs (option_copied name.entry) ident.now.name)) }
{
    if differs(name, &ident.name) {
        return Ok(Some(Renaming {
            as_word: ident.span,
            name: copy_ident(alloc, ident)?,
        }));
    }
    Ok(None)
}

/// `as NAME`: what is written, or what the new name of the task asks for.
fn copy_alias(
    alloc: Global,
    alias: &Option<Renaming>,
    ident: &Ident,
    name: Option<&Name>,
) -> Result<Option<Renaming>, NoMemory>
    ensures { IfOk result (λ r. r ≡ spec.alias_with (option_copied name.entry) ident.now alias.now) }
{
    match alias {
        Some(alias) => Ok(Some(copy_renaming(alloc, alias)?)),
        None => alias_for(alloc, ident, name),
    }
}

fn copy_one_after(alloc: Global, after: &After) -> Result<After, NoMemory>
    ensures { IfOk result (λ a. a ≡ after.now) }
{
    Ok(After {
        keyword: after.keyword,
        name: copy_ident(alloc, &after.name)?,
    })
}

fn copy_after(alloc: Global, after: &[After]) -> Result<Items<After>, NoMemory>
    ensures { IfOk result (λ xs. xs ≡ after.now) }
{
    let mut copies = Items::new(alloc);
    for one in after {
        copies.push(copy_one_after(alloc, one)?)?;
    }
    Ok(copies)
}

fn push_argument(
    alloc: Global,
    arguments: &mut Items<ListItem<Argument>>,
    argument: &ListItem<Argument>,
    locals: &Indexed<Local>,
) -> Result<(), NoMemory>
    ensures { OnOk result (arguments.new ≡ arguments.old ++ spec.argument_item (local.stands_for locals.now) argument.now ∷ []) }
{
    let name = copy_ident(alloc, &argument.item.name)?;
    let value = copy_assigned(alloc, &argument.item.value, locals)?;
    let comma = argument.comma;
    let item = Argument { name, value };
    put(arguments, ListItem { item, comma })
}

fn copy_call_inputs(
    alloc: Global,
    inputs: &CallInputs,
    locals: &Indexed<Local>,
) -> Result<CallInputs, NoMemory>
    ensures { IfOk result (λ i. i ≡ spec.call_inputs_with (local.stands_for locals.now) inputs.now) }
{
    let mut arguments = Items::new(alloc);
    for argument in inputs.arguments.as_slice() {
        push_argument(alloc, &mut arguments, argument, locals)?;
    }
    Ok(CallInputs {
        keyword: inputs.keyword,
        colon: inputs.colon,
        arguments,
    })
}

fn some_call_inputs(
    alloc: Global,
    inputs: &Option<CallInputs>,
    locals: &Indexed<Local>,
) -> Result<Option<CallInputs>, NoMemory>
    ensures { IfOk result (λ i. i ≡ option_map (spec.call_inputs_with (local.stands_for locals.now)) inputs.now) }
{
    match inputs {
        Some(inputs) => Ok(Some(copy_call_inputs(alloc, inputs, locals)?)),
        None => Ok(None),
    }
}

fn copy_call_body(
    alloc: Global,
    body: &Option<CallBody>,
    locals: &Indexed<Local>,
) -> Result<Option<CallBody>, NoMemory>
    ensures { IfOk result (λ b. b ≡ option_map (spec.call_body_with (local.stands_for locals.now)) body.now) }
{
    match body {
        Some(body) => Ok(Some(CallBody {
            opening: body.opening,
            inputs: some_call_inputs(alloc, &body.inputs, locals)?,
            closing: body.closing,
        })),
        None => Ok(None),
    }
}

/// A copy of a call of a task that has this name in the bundle.
pub fn copy_call(
    alloc: Global,
    call: &Call,
    name: Option<&Name>,
    locals: &Indexed<Local>,
) -> Result<Call, NoMemory>
    ensures { IfOk result (λ c. c ≡ spec.call_as (local.stands_for locals.now) (option_copied name.entry) call.now) }
{
    let target = copy_target(alloc, &call.target, name)?;
    let alias = copy_alias(alloc, &call.alias, target_ident(&call.target), name)?;
    let after = copy_after(alloc, call.after.as_slice())?;
    Ok(Call {
        keyword: call.keyword,
        target,
        alias,
        after,
        body: copy_call_body(alloc, &call.body, locals)?,
    })
}
