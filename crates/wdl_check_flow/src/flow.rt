//! Whole workflows: first what calls of them see, then their bodies.

ghost use Rattle.std.specs.Prelude.{◌≡◌, map, IfOk};
ghost use Rattle.wdl_check_types.specs.Outcome as outcome;
ghost use Rattle.wdl_check_decls.specs.Declarations.{inputs_typed};
ghost use Rattle.wdl_check_decls.specs.Expressions as seen;
ghost use Rattle.wdl_check_flow.specs.Flows as spec;
ghost use Rattle.wdl_check_flow.specs.Given.{seen_of};
ghost use Rattle.wdl_check_flow.specs.Targets.{place_of};

use crate::body::check_body;
use crate::context::Context;
use crate::declared::repeated;
use crate::nesting::deepest;
use crate::sections::Sections;
use crate::visible::Visible;
use std::alloc::Global;
use wdl_ast::{Declaration, InputDeclaration, Workflow};
use wdl_check_decls::{Seeing, Standing, check_declarations, check_inputs};
use wdl_check_order::order_of;
use wdl_check_rules::CheckFault;
use wdl_check_types::written_type;
use wdl_names::{NameStack, TypedNames};
use wdl_typed::{Statement, TDecl, TInput};
use wdl_value::{Items, Member, NoMemory};

/// What calls of a workflow see: its inputs, and the names and types of its outputs, in their
/// dependency order.
#[derive(Drop)]
pub struct FlowHead {
    pub inputs: Items<TInput>,
    pub outputs: Items<Member>,
}

/// The statements and the outputs of a workflow.
#[derive(Drop)]
pub struct FlowRest {
    pub body: Items<Statement>,
    pub outputs: Items<TDecl>,
}

/// The name and the type of an output.
fn check_result(alloc: Global, seeing: &Seeing, output: &Declaration) -> Result<Member, CheckFault>
    ensures { outcome.Answers (spec.result_typed (seen.world seeing.now) output.now) result }
{
    let name = output.name.name.copy(alloc)?;
    let ty = written_type(alloc, &output.ty, seeing.locals)?;
    Ok(Member { name, ty })
}

/// The names and types of outputs, in their dependency order.
fn check_results(
    alloc: Global,
    seeing: &Seeing,
    list: &[&Declaration],
) -> Result<Items<Member>, CheckFault>
    ensures { outcome.Answers (spec.results_typed (seen.world seeing.now) (map (λ d. d.now) list.now)) result }
{
    let positions = order_of(alloc, list)?;
    let mut done = Items::new(alloc);
    for position in positions.as_slice() {
        let Some(output) = list.get(*position) else {
            continue;
        };
        done.push(check_result(alloc, seeing, output)?)?;
    }
    Ok(done)
}

/// What stands against a workflow before anything is typed.
fn check_shape(alloc: Global, sections: &Sections) -> Result<(), CheckFault>
    ensures { outcome.Answers (spec.shape_typed (map (λ i. i.now) sections.now.inputs.items) (map (λ s. s.now) sections.now.statements.items) (map (λ d. d.now) sections.now.outputs.items)) result }
{
    if let Some(span) = deepest(sections.statements.as_slice()) {
        return Err(CheckFault::Bad { code: 328, span });
    }
    match repeated(alloc, sections)? {
        Some(span) => Err(CheckFault::Bad { code: 321, span }),
        None => Ok(()),
    }
}

fn check_head_inputs(
    alloc: Global,
    seeing: &Seeing,
    list: &[&InputDeclaration],
) -> Result<Items<TInput>, CheckFault>
    ensures { outcome.Answers (inputs_typed (seen.world seeing.now) (map (λ i. i.now) list.now)) result }
{
    let mut names = TypedNames::empty(alloc);
    check_inputs(alloc, seeing, &mut names, list)
}

/// What calls of a workflow see (OpenWDL 1.1, "Workflow Definition"). `Bad` comes with 328 where
/// more than 24 blocks and calls stand in one another, with 321 where a name stands twice, and with
/// the codes of inputs and of written types.
pub fn check_head(
    alloc: Global,
    seeing: &Seeing,
    workflow: &Workflow,
) -> Result<FlowHead, CheckFault>
    ensures { outcome.Answers (spec.head_typed (seen.world seeing.now) workflow.now) result }
{
    let sections = Sections::of(alloc, workflow.elements.as_slice())?;
    check_shape(alloc, &sections)?;
    let inputs = check_head_inputs(alloc, seeing, sections.inputs.as_slice())?;
    let outputs = check_results(alloc, seeing, sections.outputs.as_slice())?;
    Ok(FlowHead { inputs, outputs })
}

/// The names of the inputs.
fn inputs_seen(alloc: Global, inputs: &[TInput]) -> Result<Visible, NoMemory>
    ensures { IfOk result (λ v. seen_of v ≡ spec.inputs_seen inputs.now) }
{
    let mut visible = Visible {
        names: TypedNames::empty(alloc),
        calls: NameStack::empty(alloc),
    };
    for input in inputs {
        visible.enter(alloc, &input.name, &input.ty)?;
    }
    Ok(visible)
}

/// The statements of a workflow, and its outputs, which see the inputs and what the statements give
/// out.
pub fn check_rest(
    alloc: Global,
    context: &Context,
    workflow: &Workflow,
    inputs: &[TInput],
) -> Result<FlowRest, CheckFault>
    ensures { outcome.Answers (spec.rest_typed (place_of context.now) inputs.now workflow.now) result }
{
    let sections = Sections::of(alloc, workflow.elements.as_slice())?;
    let mut visible = inputs_seen(alloc, inputs)?;
    let body = check_body(alloc, context, &mut visible, sections.statements.as_slice())?;
    let seeing = context.seeing.with_calls(&visible.calls);
    let outputs = check_declarations(
        alloc,
        Standing::Body,
        &seeing,
        &mut visible.names,
        sections.outputs.as_slice(),
    )?;
    Ok(FlowRest { body, outputs })
}
