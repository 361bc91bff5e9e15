//! The bodies of workflows, whose statements stand in dependency order.

ghost use Rattle.std.specs.Prelude.{◌≡◌, IfOk, OnOk, option_map, slice_get};
ghost use Rattle.std.specs.Option.{option_copied};
ghost use Rattle.wdl_typed.specs.Bodies as bodies;
ghost use Rattle.cwl_image.specs.Subset as subset;
ghost use Rattle.cwl_rules.specs.Lowest.{lowest};
ghost use Rattle.cwl_subset.specs.Walks as spec;

use cwl_image::Broken;
use cwl_rules::{Role, are_allowed, decl_broken, lower, refers, unless};
use given_types::{arrays, declared, enter_names, optionals, outputs_of};
use sqlite_items::{Items, at};
use std::alloc::Global;
use wdl_names::{Indexed, NameStack, TypedNames};
use wdl_typed::{Bound, FlowDef, Statement, TCall, TDecl, TExpr, TField, Target, TaskDef};
use wdl_typing::{body_type, enter};
use wdl_value::{Name, NoMemory, Span, StructDef, Ty};

/// The library, and the names that the workflow's body declares.
#[derive(Drop)]
pub struct Context<'a> {
    pub structs: &'a Indexed<'a, StructDef>,
    pub tasks: &'a [TaskDef],
    pub flows: &'a [FlowDef],
    pub declared: &'a NameStack,
}

/// The names that statements give out, with their types, and the lowest rule that they break.
#[derive(Debug, Drop)]
pub struct Walked {
    pub given: Items<Bound>,
    pub broken: Option<Broken>,
}

impl Walked {
    /// Nothing.
    fn empty(alloc: Global) -> Walked
        ensures { result ≡ spec.none }
    {
        Walked {
            given: Items::new(alloc),
            broken: None,
        }
    }

    /// Adds those of the statements behind.
    fn append(&mut self, next: Walked) -> Result<(), NoMemory>
        ensures { OnOk result (self.new ≡ spec.joined self.old next) }
    {
        let Walked { given, broken } = next;
        self.given.append(given)?;
        self.broken = lower(self.broken, broken);
        Ok(())
    }
}

/// Whether the arguments are references.
fn args_refer(
    alloc: Global,
    args: &[TField<TExpr>],
    context: &Context,
    names: &TypedNames,
) -> Result<bool, NoMemory>
    ensures { IfOk result (λ b. b ≡ subset.args_refer context.now.structs.now context.now.declared.now names.now args.now) }
{
    for arg in args {
        if !refers(alloc, &arg.value, context.declared, context.structs, names)? {
            return Ok(false);
        }
    }
    Ok(true)
}

/// Whether the casts in the arguments are those of the subset.
fn args_allowed(
    alloc: Global,
    args: &[TField<TExpr>],
    context: &Context,
    names: &TypedNames,
) -> Result<bool, NoMemory>
    ensures { IfOk result (λ b. b ≡ subset.args_allowed context.now.structs.now names.now args.now) }
{
    for arg in args {
        if !are_allowed(alloc, &arg.value, context.structs, names, false)? {
            return Ok(false);
        }
    }
    Ok(true)
}

/// The lowest rule that a call breaks.
#[tactic(auto, using(cwl_rules::proofs::LowestLemmas::lowest_append))]
fn call_broken(
    alloc: Global,
    call: &TCall,
    context: &Context,
    names: &TypedNames,
) -> Result<Option<Broken>, NoMemory>
    ensures { IfOk result (λ b. b ≡ lowest (subset.call_broken context.now.structs.now context.now.declared.now names.now call.now)) }
{
    let args = call.args.as_slice();
    let refer = unless(args_refer(alloc, args, context, names)?, 601, call.span);
    let after = unless(call.after.is_empty(), 604, call.span);
    let casts = unless(args_allowed(alloc, args, context, names)?, 606, call.span);
    Ok(lower(lower(refer, after), casts))
}

fn task_outputs<'a>(tasks: &'a [TaskDef], number: u32) -> Option<&'a [TDecl]>
    ensures { option_copied result ≡ spec.outputs_in (option_map bodies.task_signature (slice_get tasks.now number)) }
{
    let task = at(tasks, number as usize)?;
    Some(task.outputs.as_slice())
}

fn flow_outputs<'a>(flows: &'a [FlowDef], number: u32) -> Option<&'a [TDecl]>
    ensures { option_copied result ≡ spec.outputs_in (option_map bodies.flow_signature (slice_get flows.now number)) }
{
    let flow = at(flows, number as usize)?;
    Some(flow.outputs.as_slice())
}

/// The outputs of what a call names.
fn target_outputs<'a>(context: &Context<'a>, target: Target) -> Option<&'a [TDecl]>
    ensures { option_copied result ≡ spec.outputs_in (bodies.signature (spec.library_of context.now) target) }
{
    match target {
        Target::Task(number) => task_outputs(context.tasks, number),
        Target::Flow(number) => flow_outputs(context.flows, number),
    }
}

/// The outputs of a call.
pub fn call_given(alloc: Global, call: &TCall, context: &Context) -> Result<Items<Bound>, NoMemory>
    ensures { IfOk result (λ bs. bs ≡ subset.outputs_bound call.now.name (bodies.signature (spec.library_of context.now) call.now.target)) }
{
    match target_outputs(context, call.target) {
        Some(outputs) => outputs_of(alloc, &call.name, outputs),
        None => Ok(Items::new(alloc)),
    }
}

fn call_walk(
    alloc: Global,
    call: &TCall,
    context: &Context,
    names: &TypedNames,
) -> Result<Walked, NoMemory>
    ensures { IfOk result (λ w. w ≡ spec.call_walk (spec.library_of context.now) context.now.declared.now call.now names.now) }
{
    let broken = call_broken(alloc, call, context, names)?;
    let given = call_given(alloc, call, context)?;
    Ok(Walked { given, broken })
}

fn decl_walk(
    alloc: Global,
    d: &TDecl,
    context: &Context,
    names: &TypedNames,
) -> Result<Walked, NoMemory>
    ensures { IfOk result (λ w. w ≡ spec.decl_walk context.now.structs.now d.now names.now) }
{
    let broken = decl_broken(alloc, Role::Body, d, context.structs, names)?;
    let given = declared(alloc, d)?;
    Ok(Walked { given, broken })
}

/// The lowest rule that the collection or the condition of a block breaks.
#[tactic(auto, using(cwl_rules::proofs::LowestLemmas::lowest_append))]
fn block_broken(
    alloc: Global,
    e: &TExpr,
    span: Span,
    context: &Context,
    names: &TypedNames,
) -> Result<Option<Broken>, NoMemory>
    ensures { IfOk result (λ b. b ≡ lowest (subset.block_broken context.now.structs.now context.now.declared.now names.now e.now span)) }
{
    let refer = unless(
        refers(alloc, e, context.declared, context.structs, names)?,
        603,
        span,
    );
    let casts = unless(
        are_allowed(alloc, e, context.structs, names, false)?,
        606,
        span,
    );
    Ok(lower(refer, casts))
}

/// The item type of the array over which a scatter goes, and whether the array has `+`.
pub fn items_of(
    alloc: Global,
    over: &TExpr,
    context: &Context,
    names: &TypedNames,
) -> Result<Option<(Ty, bool)>, NoMemory>
    ensures { IfOk result (λ t. t ≡ spec.items_of context.now.structs.now names.now over.now) }
{
    match body_type(alloc, over, context.structs, names)? {
        Some(Ty::Array { item, some }) => Ok(Some((item.into_inner(), some))),
        _ => Ok(None),
    }
}

/// What a scatter gives out and breaks, given its collection and its body.
fn scattered(
    alloc: Global,
    head: Option<Broken>,
    inside: &Walked,
    some: bool,
) -> Result<Walked, NoMemory>
    ensures { IfOk result (λ w. w ≡ spec.scattered head inside.now some) }
{
    Ok(Walked {
        given: arrays(alloc, inside.given.as_slice(), some)?,
        broken: lower(head, inside.broken),
    })
}

/// The same of a condition.
fn conditional(alloc: Global, head: Option<Broken>, inside: &Walked) -> Result<Walked, NoMemory>
    ensures { IfOk result (λ w. w ≡ spec.conditional head inside.now) }
{
    Ok(Walked {
        given: optionals(alloc, inside.given.as_slice())?,
        broken: lower(head, inside.broken),
    })
}

/// What a statement gives out and breaks where these names are seen.
#[cycle(walk)]
fn statement_walk(
    alloc: Global,
    statement: &Statement,
    context: &Context,
    names: &mut TypedNames,
) -> Result<Walked, NoMemory>
    ensures walked { IfOk result (λ w. w ≡ spec.summed (subset.walk (spec.library_of context.now) context.now.declared.now statement.now names.old)) }
    ensures kept { OnOk result (names.new ≡ names.old) }
{
    match statement {
        Statement::Decl(d) => decl_walk(alloc, d, context, names),
        Statement::Call(c) => call_walk(alloc, c, context, names),
        Statement::Scatter(s) => {
            let body = s.body.as_slice();
            scatter_walk(alloc, body, &s.item, &s.over, s.span, context, names)
        }
        Statement::If(i) => if_walk(alloc, i.body.as_slice(), &i.cond, i.span, context, names),
    }
}

/// A scatter's item is seen in its body alone. Outside a name is an array, with `+` where the
/// collection has it.
#[tactic(auto, using(crate::proofs::WalkLemmas::scatter_none, crate::proofs::WalkLemmas::scatter_some))]
#[cycle(walk)]
fn scatter_walk(
    alloc: Global,
    body: &[Statement],
    item: &Name,
    over: &TExpr,
    span: Span,
    context: &Context,
    names: &mut TypedNames,
) -> Result<Walked, NoMemory>
    ensures walked { IfOk result (λ w. w ≡ spec.summed (spec.scatter_walk (spec.library_of context.now) context.now.declared.now body.now item.now over.now span names.old)) }
    ensures kept { OnOk result (names.new ≡ names.old) }
{
    let head = block_broken(alloc, over, span, context, names)?;
    let Some((ty, some)) = items_of(alloc, over, context, names)? else {
        return Ok(Walked {
            given: Items::new(alloc),
            broken: head,
        });
    };
    let count = names.len();
    enter(alloc, names, item, &ty)?;
    let inside = body_walk(alloc, body, context, names)?;
    names.keep(count);
    scattered(alloc, head, &inside, some)
}

/// Outside a condition a name is optional.
#[tactic(auto, using(crate::proofs::WalkLemmas::if_inside))]
#[cycle(walk)]
fn if_walk(
    alloc: Global,
    body: &[Statement],
    cond: &TExpr,
    span: Span,
    context: &Context,
    names: &mut TypedNames,
) -> Result<Walked, NoMemory>
    ensures walked { IfOk result (λ w. w ≡ spec.summed (spec.if_walk (spec.library_of context.now) context.now.declared.now body.now cond.now span names.old)) }
    ensures kept { OnOk result (names.new ≡ names.old) }
{
    let head = block_broken(alloc, cond, span, context, names)?;
    let inside = body_walk(alloc, body, context, names)?;
    conditional(alloc, head, &inside)
}

/// What the statements of a body give out and break, each seeing what those before it give out.
#[tactic(auto, using(crate::proofs::WalkLemmas::joined_none, crate::proofs::WalkLemmas::names_kept))]
#[cycle(walk)]
pub fn body_walk(
    alloc: Global,
    body: &[Statement],
    context: &Context,
    names: &mut TypedNames,
) -> Result<Walked, NoMemory>
    ensures walked { IfOk result (λ w. w ≡ spec.summed (subset.walk_body (spec.library_of context.now) context.now.declared.now body.now names.old)) }
    ensures kept { OnOk result (names.new ≡ names.old) }
{
    let count = names.len();
    let mut walked = Walked::empty(alloc);
    for statement in body {
        let next = statement_walk(alloc, statement, context, names)?;
        enter_names(alloc, names, next.given.as_slice())?;
        walked.append(next)?;
    }
    names.keep(count);
    Ok(walked)
}
