//! Calls (OpenWDL 1.1, "Call Statement").

ghost use Rattle.std.specs.Prelude.{◌≡◌, ◌&&◌, IfOk, option_map, slice_get};
ghost use Rattle.std.specs.Option.{option_copied};
ghost use Rattle.wdl_typed.specs.Bodies as bodies;
ghost use Rattle.wdl_typed.specs.Lists as lists;
ghost use Rattle.wdl_well_typed.specs.Calls as spec;
ghost use Rattle.wdl_well_typed.specs.Given as state;

use crate::given::{BodyScope, YieldedTypes};
use given_types::outputs_of;
use sqlite_items::{Items, at};
use std::alloc::Global;
use wdl_names::{Indexed, NameStack, TypedNames, add_all};
use wdl_typed::{FlowDef, TCall, TDecl, TExpr, TField, TInput, Target, TaskDef};
use wdl_typing::{body_type, is_type};
use wdl_value::{Name, NoMemory, StructDef, Ty, is_optional};

/// What a call can name, and the structs.
#[derive(Drop)]
pub struct Library<'a> {
    pub structs: Indexed<'a, StructDef>,
    pub tasks: &'a [TaskDef],
    pub flows: &'a [FlowDef],
}

/// The inputs and the outputs of what a call names.
#[derive(Drop)]
struct Signature<'a> {
    inputs: &'a [TInput],
    outputs: &'a [TDecl],
}

fn task_signature<'a>(tasks: &'a [TaskDef], number: u32) -> Option<Signature<'a>>
    ensures { option_map spec.signature_of result ≡ option_map bodies.task_signature (slice_get tasks.now number) }
{
    let task = at(tasks, number as usize)?;
    Some(Signature {
        inputs: task.inputs.as_slice(),
        outputs: task.outputs.as_slice(),
    })
}

fn flow_signature<'a>(flows: &'a [FlowDef], number: u32) -> Option<Signature<'a>>
    ensures { option_map spec.signature_of result ≡ option_map bodies.flow_signature (slice_get flows.now number) }
{
    let flow = at(flows, number as usize)?;
    Some(Signature {
        inputs: flow.inputs.as_slice(),
        outputs: flow.outputs.as_slice(),
    })
}

fn target_signature<'a>(library: &Library<'a>, target: Target) -> Option<Signature<'a>>
    ensures { option_map spec.signature_of result ≡ bodies.signature (spec.library_of library.now) target }
{
    match target {
        Target::Task(number) => task_signature(library.tasks, number),
        Target::Flow(number) => flow_signature(library.flows, number),
    }
}

/// The type of the first input of that name.
fn input_type<'a>(inputs: &Indexed<'a, TInput>, name: &Name) -> Option<&'a Ty>
    ensures { option_copied result ≡ bodies.input_type inputs.now name.now }
{
    match inputs.find(name) {
        Some(input) => Some(&input.ty),
        None => None,
    }
}

/// Whether an argument is an input, of exactly its type.
fn arg_is_typed(
    alloc: Global,
    arg: &TField<TExpr>,
    inputs: &Indexed<TInput>,
    structs: &Indexed<StructDef>,
    names: &TypedNames,
) -> Result<bool, NoMemory>
    ensures { IfOk result (λ b. b ≡ spec.arg_fits structs.now names.now inputs.now arg.now) }
{
    let Some(ty) = input_type(inputs, &arg.name) else {
        return Ok(false);
    };
    let t = body_type(alloc, &arg.value, structs, names)?;
    Ok(is_type(&t, ty))
}

fn args_are_typed(
    alloc: Global,
    args: &[TField<TExpr>],
    inputs: &Indexed<TInput>,
    structs: &Indexed<StructDef>,
    names: &TypedNames,
) -> Result<bool, NoMemory>
    ensures { IfOk result (λ b. b ≡ bodies.args_typed structs.now names.now inputs.now args.now) }
{
    for arg in args {
        if !arg_is_typed(alloc, arg, inputs, structs, names)? {
            return Ok(false);
        }
    }
    Ok(true)
}

/// An input without a default that is not optional is required.
fn is_required(input: &TInput) -> bool
    ensures { result ≡ bodies.is_required input.now }
{
    input.value.is_none() && !is_optional(&input.ty)
}

fn all_given(inputs: &[TInput], given: &NameStack) -> bool
    ensures { result ≡ bodies.all_given inputs.now given.now }
{
    for input in inputs {
        if is_required(input) && !given.has(&input.name) {
            return false;
        }
    }
    true
}

fn all_seen(names: &[Name], calls: &NameStack) -> bool
    ensures { result ≡ bodies.all_seen calls.now names.now }
{
    for name in names {
        if !calls.has(name) {
            return false;
        }
    }
    true
}

/// Whether the arguments differ and give each required input.
fn args_suffice(alloc: Global, args: &[TField<TExpr>], inputs: &[TInput]) -> Result<bool, NoMemory>
    ensures { IfOk result (λ b. b ≡ (lists.are_distinct (bodies.arg_names args.now) && bodies.all_given inputs.now (bodies.arg_names args.now))) }
{
    let mut given = NameStack::empty(alloc);
    if !add_all(alloc, &mut given, args)? {
        return Ok(false);
    }
    Ok(all_given(inputs, &given))
}

/// Whether a call of what has these inputs is well typed where this is seen.
fn call_is_typed(
    alloc: Global,
    call: &TCall,
    inputs: &[TInput],
    structs: &Indexed<StructDef>,
    scope: &BodyScope,
) -> Result<bool, NoMemory>
    ensures { IfOk result (λ b. b ≡ spec.call_fits structs.now call.now (state.seen scope.now) inputs.now) }
{
    let args = call.args.as_slice();
    let index = Indexed::new(alloc, inputs)?;
    Ok(
        args_are_typed(alloc, args, &index, structs, &scope.names)?
            && args_suffice(alloc, args, inputs)?
            && all_seen(call.after.as_slice(), &scope.calls),
    )
}

/// What a call gives out.
fn given_by(alloc: Global, call: &Name, outputs: &[TDecl]) -> Result<YieldedTypes, NoMemory>
    ensures { IfOk result (λ g. state.given g ≡ bodies.call_gives call.now outputs.now) }
{
    let names = outputs_of(alloc, call, outputs)?;
    let mut calls = Items::new(alloc);
    calls.push(call.copy(alloc)?)?;
    Ok(YieldedTypes { names, calls })
}

/// What a call gives out, if it is well typed where this is seen.
pub fn call_gives(
    alloc: Global,
    call: &TCall,
    library: &Library,
    scope: &BodyScope,
) -> Result<Option<YieldedTypes>, NoMemory>
    ensures { IfOk result (λ g. option_map state.given g ≡ bodies.call_step (spec.library_of library.now) call.now (state.seen scope.now)) }
{
    let Some(signature) = target_signature(library, call.target) else {
        return Ok(None);
    };
    if !call_is_typed(alloc, call, signature.inputs, &library.structs, scope)? {
        return Ok(None);
    }
    Ok(Some(given_by(alloc, &call.name, signature.outputs)?))
}
