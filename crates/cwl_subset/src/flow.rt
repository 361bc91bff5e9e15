//! Workflows.

ghost use Rattle.std.specs.Prelude.{◌≡◌, ◌++◌, IfOk, OnOk};
ghost use Rattle.wdl_typed.specs.Bodies.{library};
ghost use Rattle.cwl_image.specs.Subset as subset;
ghost use Rattle.cwl_rules.specs.Lowest.{lowest};
ghost use Rattle.cwl_subset.specs.Tables.{own_table};
ghost use Rattle.cwl_subset.specs.Walks.{declared_in, flow_outputs_broken};

use crate::scope::{enter_decls, input_scope};
use crate::walk::{Context, body_walk};
use cwl_image::Broken;
use cwl_rules::{Role, decls_broken, inputs_broken, lower};
use given_types::enter_names;
use sqlite_items::Items;
use std::alloc::Global;
use wdl_names::{Indexed, NameStack, TypedNames};
use wdl_typed::{Bound, FlowDef, Statement, TDecl, TaskDef};
use wdl_value::{NoMemory, StructDef};

/// Adds the names that a statement and the bodies in it declare.
#[cycle(declared)]
fn enter_statement(
    alloc: Global,
    statement: &Statement,
    names: &mut NameStack,
) -> Result<(), NoMemory>
    ensures { OnOk result (names.new ≡ names.old ++ declared_in statement.now) }
{
    match statement {
        Statement::Decl(d) => names.enter(d.name.copy(alloc)?),
        Statement::Call(_) => Ok(()),
        Statement::Scatter(s) => enter_declared(alloc, s.body.as_slice(), names),
        Statement::If(i) => enter_declared(alloc, i.body.as_slice(), names),
    }
}

#[cycle(declared)]
fn enter_declared(alloc: Global, body: &[Statement], names: &mut NameStack) -> Result<(), NoMemory>
    ensures { OnOk result (names.new ≡ names.old ++ subset.declared_by body.now) }
{
    for statement in body {
        enter_statement(alloc, statement, names)?;
    }
    Ok(())
}

/// The names that a body declares.
pub fn declared_by(alloc: Global, body: &[Statement]) -> Result<NameStack, NoMemory>
    ensures { IfOk result (λ w. w ≡ subset.declared_by body.now) }
{
    let mut names = NameStack::empty(alloc);
    enter_declared(alloc, body, &mut names)?;
    Ok(names)
}

/// The lowest rule that the outputs of a workflow break, which see these names, what the body gives
/// out, and each other.
fn outputs_broken(
    alloc: Global,
    outputs: &[TDecl],
    given: &[Bound],
    structs: &Indexed<StructDef>,
    names: &mut TypedNames,
) -> Result<Option<Broken>, NoMemory>
    ensures { IfOk result (λ b. b ≡ lowest (flow_outputs_broken structs.now (names.old ++ given.now) outputs.now)) }
{
    enter_names(alloc, names, given)?;
    enter_decls(alloc, names, outputs)?;
    decls_broken(alloc, Role::FlowOutput, outputs, structs, names)
}

/// The lowest rule that a workflow breaks itself.
fn flow_broken<'a>(
    alloc: Global,
    flow: &FlowDef,
    structs: &'a Indexed<'a, StructDef>,
    tasks: &'a [TaskDef],
    flows: &'a [FlowDef],
) -> Result<Option<Broken>, NoMemory>
    ensures { IfOk result (λ b. b ≡ lowest (subset.flow_broken (library structs.now tasks.now flows.now) flow.now)) }
{
    let body = flow.body.as_slice();
    let inputs = flow.inputs.as_slice();
    let declared = declared_by(alloc, body)?;
    let context = Context {
        structs: &*structs,
        tasks: &*tasks,
        flows: &*flows,
        declared: &declared,
    };
    let mut names = input_scope(alloc, inputs)?;
    let first = inputs_broken(alloc, inputs, structs, &names)?;
    let walked = body_walk(alloc, body, &context, &mut names)?;
    let given = walked.given.as_slice();
    let outputs = flow.outputs.as_slice();
    let last = outputs_broken(alloc, outputs, given, structs, &mut names)?;
    Ok(lower(lower(first, walked.broken), last))
}

/// For each workflow the lowest rule that it breaks itself.
pub fn flows_broken<'a>(
    alloc: Global,
    structs: &'a Indexed<'a, StructDef>,
    tasks: &'a [TaskDef],
    flows: &'a [FlowDef],
) -> Result<Items<Option<Broken>>, NoMemory>
    ensures { IfOk result (λ t. t ≡ own_table (library structs.now tasks.now flows.now) flows.now) }
{
    let mut table = Items::new(alloc);
    for flow in flows {
        table.push(flow_broken(alloc, flow, structs, tasks, flows)?)?;
    }
    Ok(table)
}
