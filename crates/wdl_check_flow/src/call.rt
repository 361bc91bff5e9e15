//! Calls.

ghost use Rattle.std.specs.Prelude.{◌≡◌, ◌++◌, ◌∷◌, [], false, IfOk};
ghost use Rattle.wdl_ast.specs.declared.expr.Expr.TheVariants as expr;
ghost use Rattle.wdl_typed.specs.Bodies as bodies;
ghost use Rattle.wdl_typed.specs.Bodies.{arg_names};
ghost use Rattle.wdl_check_types.specs.Outcome as outcome;
ghost use Rattle.wdl_check_order.specs.Needs.{after_names};
ghost use Rattle.wdl_check_decls.specs.Expressions.{expr_as};
ghost use Rattle.wdl_check_flow.specs.Calls as spec;
ghost use Rattle.wdl_check_flow.specs.Given.{seen_of};
ghost use Rattle.wdl_check_flow.specs.Stating.{States};
ghost use Rattle.wdl_check_flow.specs.Targets.{offer_of, place_of, world_at};

use crate::context::{Callable, Context};
use crate::visible::Visible;
use std::alloc::Global;
use wdl_ast::{After, Argument, Call, CallTarget, Expr, Ident, ListItem};
use wdl_check_decls::check_as_in;
use wdl_check_order::call_arguments;
use wdl_check_rules::{CheckFault, let_go};
use wdl_check_types::{call_ident, call_span, from_to};
use wdl_names::NameStack;
use wdl_typed::{Statement, TCall, TExpr, TField, TInput};
use wdl_value::{Items, Name, NoMemory, Span, Ty, is_optional};

fn target_span(target: &CallTarget) -> Span
    ensures { result ≡ spec.target_span target.now }
{
    match &target.second {
        Some(member) => from_to(target.first.span, member.name.span),
        None => target.first.span,
    }
}

/// An argument without a value is the name itself.
fn check_short(
    alloc: Global,
    context: &Context,
    visible: &Visible,
    ident: &Ident,
    t: &Ty,
) -> Result<TExpr, CheckFault>
    ensures { outcome.Answers (expr_as (world_at (place_of context.now) (seen_of visible.now)) visible.now.names false (expr.Name ident.now) t.now) result }
{
    let e = Expr::Name(Ident {
        name: ident.name.copy(alloc)?,
        span: ident.span,
    });
    let seeing = context.seeing.with_calls(&visible.calls);
    let value = check_as_in(alloc, &seeing, &visible.names, false, &e, t);
    let_go(e);
    value
}

fn check_value(
    alloc: Global,
    context: &Context,
    visible: &Visible,
    argument: &Argument,
    t: &Ty,
) -> Result<TExpr, CheckFault>
    ensures { outcome.Answers (expr_as (world_at (place_of context.now) (seen_of visible.now)) visible.now.names false (spec.value_of argument.now.name argument.now.value) t.now) result }
{
    match &argument.value {
        Some(assigned) => {
            let seeing = context.seeing.with_calls(&visible.calls);
            check_as_in(alloc, &seeing, &visible.names, false, &assigned.value, t)
        }
        None => check_short(alloc, context, visible, &argument.name, t),
    }
}

fn check_argument(
    alloc: Global,
    context: &Context,
    visible: &Visible,
    callable: &Callable,
    argument: &Argument,
) -> Result<TField<TExpr>, CheckFault>
    ensures value { outcome.Answers (spec.argument_typed (place_of context.now) (seen_of visible.now) (offer_of callable.now) argument.now) result }
    ensures name { IfOk result (λ f. f.name ≡ argument.now.name.name) }
{
    let Some(input) = callable.inputs.find(&argument.name.name) else {
        return Err(CheckFault::Bad {
            code: 324,
            span: argument.name.span,
        });
    };
    let name = argument.name.name.copy(alloc)?;
    let value = check_value(alloc, context, visible, argument, &input.ty)?;
    Ok(TField { name, value })
}

/// An argument, whose name is none of those that are given before it, and is added to them.
fn next_argument(
    alloc: Global,
    context: &Context,
    visible: &Visible,
    callable: &Callable,
    argument: &Argument,
    given: &mut NameStack,
) -> Result<TField<TExpr>, CheckFault>
    ensures value { outcome.Answers (spec.next_argument (place_of context.now) (seen_of visible.now) (offer_of callable.now) given.old argument.now) result }
    ensures given { IfOk result (λ f. given.new ≡ given.old ++ f.name ∷ []) }
{
    let name = &argument.name;
    if given.has(&name.name) {
        return Err(CheckFault::Bad {
            code: 321,
            span: name.span,
        });
    }
    given.enter(name.name.copy(alloc)?)?;
    check_argument(alloc, context, visible, callable, argument)
}

/// The arguments in their order, each an input of what is called, and none twice.
fn check_arguments(
    alloc: Global,
    context: &Context,
    visible: &Visible,
    callable: &Callable,
    arguments: &[ListItem<Argument>],
    given: &mut NameStack,
) -> Result<Items<TField<TExpr>>, CheckFault>
    requires { given.old ≡ [] }
    ensures value { outcome.Answers (spec.arguments_behind (place_of context.now) (seen_of visible.now) (offer_of callable.now) [] arguments.now) result }
    ensures given { IfOk result (λ args. given.new ≡ arg_names args) }
{
    let mut done = Items::new(alloc);
    for argument in arguments {
        let argument = &argument.item;
        done.push(next_argument(alloc, context, visible, callable, argument, given)?)?;
    }
    Ok(done)
}

/// An input without a default that is not optional has to be given.
fn is_required(input: &TInput) -> bool
    ensures { result ≡ bodies.is_required input.now }
{
    input.value.is_none() && !is_optional(&input.ty)
}

fn are_given(inputs: &[TInput], given: &NameStack) -> bool
    ensures { result ≡ bodies.all_given inputs.now given.now }
{
    for input in inputs {
        if is_required(input) && !given.has(&input.name) {
            return false;
        }
    }
    true
}

fn check_required(span: Span, callable: &Callable, given: &NameStack) -> Result<(), CheckFault>
    ensures { outcome.Answers (spec.required_given span (offer_of callable.now) given.now) result }
{
    if are_given(callable.inputs.as_slice(), given) {
        return Ok(());
    }
    Err(CheckFault::Bad { code: 323, span })
}

/// Where the first name behind `after` stands that is no call that is seen.
fn first_unseen(calls: &NameStack, after: &[After]) -> Option<Span>
    ensures { result ≡ spec.first_unseen calls.now after.now }
{
    for word in after {
        if !calls.has(&word.name.name) {
            return Some(word.name.span);
        }
    }
    None
}

fn names_behind(alloc: Global, after: &[After]) -> Result<Items<Name>, NoMemory>
    ensures { IfOk result (λ ns. ns ≡ after_names after.now) }
{
    let mut names = Items::new(alloc);
    for word in after {
        names.push(word.name.name.copy(alloc)?)?;
    }
    Ok(names)
}

/// The calls behind `after`, which have to be seen.
fn check_after(alloc: Global, visible: &Visible, after: &[After]) -> Result<Items<Name>, CheckFault>
    ensures { outcome.Answers (spec.after_typed (seen_of visible.now) after.now) result }
{
    if let Some(span) = first_unseen(&visible.calls, after) {
        return Err(CheckFault::Bad { code: 301, span });
    }
    Ok(names_behind(alloc, after)?)
}

fn call_with(
    alloc: Global,
    callable: &Callable,
    call: &Call,
    args: Items<TField<TExpr>>,
    after: Items<Name>,
) -> Result<TCall, NoMemory>
    ensures { IfOk result (λ c. c ≡ spec.call_with call.now (offer_of callable.now) args after) }
{
    Ok(TCall {
        name: call_ident(call).name.copy(alloc)?,
        target: callable.target,
        args,
        after,
        span: call_span(call),
    })
}

/// A call of what it names (OpenWDL 1.1, "Call Statement").
fn check_call_of(
    alloc: Global,
    context: &Context,
    visible: &Visible,
    callable: &Callable,
    call: &Call,
) -> Result<TCall, CheckFault>
    ensures { outcome.Answers (spec.call_to (place_of context.now) (seen_of visible.now) (offer_of callable.now) call.now) result }
{
    let mut given = NameStack::empty(alloc);
    let arguments = call_arguments(call);
    let args = check_arguments(alloc, context, visible, callable, arguments, &mut given)?;
    check_required(call_span(call), callable, &given)?;
    let after = check_after(alloc, visible, call.after.as_slice())?;
    Ok(call_with(alloc, callable, call, args, after)?)
}

/// A call, whose outputs and name are added to what is seen.
pub fn check_call(
    alloc: Global,
    context: &Context,
    visible: &mut Visible,
    call: &Call,
) -> Result<Statement, CheckFault>
    ensures { States (spec.call_typed (place_of context.now) (seen_of visible.old) call.now) (seen_of visible.old) (seen_of visible.new) result }
{
    let Some(callable) = context.targets.find(&call.target) else {
        return Err(CheckFault::Bad {
            code: 322,
            span: target_span(&call.target),
        });
    };
    let typed = check_call_of(alloc, context, visible, callable, call)?;
    visible.enter_call(alloc, &typed.name, callable.outputs)?;
    Ok(Statement::Call(typed))
}
