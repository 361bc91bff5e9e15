//! Inputs.

ghost use Rattle.std.specs.Prelude.{◌≡◌, ◌++◌, ◌∷◌, [], map, IfOk};
ghost use Rattle.wdl_typed.specs.Declarations.{bound, inputs_bound};
ghost use Rattle.wdl_check_types.specs.Outcome as outcome;
ghost use Rattle.wdl_check_decls.specs.Declarations as spec;
ghost use Rattle.wdl_check_decls.specs.Expressions as seen;

use crate::declaration::enter;
use crate::expression::check_as_in;
use crate::seeing::Seeing;
use sqlite_items::at;
use std::alloc::Global;
use wdl_ast::{Assigned, InputDeclaration};
use wdl_check_order::order_of;
use wdl_check_rules::{CheckFault, let_go};
use wdl_check_types::{input_span, written_type};
use wdl_names::TypedNames;
use wdl_typed::{TExpr, TInput};
use wdl_value::{Items, NoMemory, Ty};

fn check_preset(
    alloc: Global,
    seeing: &Seeing,
    names: &TypedNames,
    preset: &Option<Assigned>,
    t: &Ty,
) -> Result<Option<TExpr>, CheckFault>
    ensures { outcome.Answers (spec.preset_typed (seen.world seeing.now) names.now t.now preset.now) result }
{
    match preset {
        Some(assigned) => {
            let value = check_as_in(alloc, seeing, names, false, &assigned.value, t)?;
            Ok(Some(value))
        }
        None => Ok(None),
    }
}

/// An input of that type with its typed default.
fn with_default(
    alloc: Global,
    seeing: &Seeing,
    names: &TypedNames,
    input: &InputDeclaration,
    ty: Ty,
) -> Result<TInput, CheckFault>
    ensures { outcome.Answers (spec.input_as (seen.world seeing.now) names.now input.now ty) result }
{
    let name = input.name.name.copy(alloc)?;
    let value = check_preset(alloc, seeing, names, &input.preset, &ty)?;
    Ok(TInput {
        name,
        ty,
        value,
        span: input_span(input),
    })
}

fn check_input(
    alloc: Global,
    seeing: &Seeing,
    names: &TypedNames,
    input: &InputDeclaration,
) -> Result<TInput, CheckFault>
    ensures { outcome.Answers (spec.input_typed (seen.world seeing.now) names.now input.now) result }
{
    let ty = written_type(alloc, &input.ty, seeing.locals)?;
    with_default(alloc, seeing, names, input, ty)
}

/// An input, whose name is added to the names.
fn declare(
    alloc: Global,
    seeing: &Seeing,
    names: &mut TypedNames,
    input: &InputDeclaration,
) -> Result<TInput, CheckFault>
    ensures value { outcome.Answers (spec.input_typed (seen.world seeing.now) names.old input.now) result }
    ensures names { IfOk result (λ i. names.new ≡ names.old ++ bound i.name i.ty ∷ []) }
{
    let typed = check_input(alloc, seeing, names, input)?;
    match enter(alloc, names, &typed.name, &typed.ty) {
        Ok(()) => Ok(typed),
        Err(NoMemory) => {
            let_go(typed);
            Err(CheckFault::NoMemory)
        }
    }
}

/// Inputs in their dependency order (OpenWDL 1.1, "Task Inputs"). The default of each sees the
/// inputs that stand before it in this order, and these are the names that are given back. `Bad`
/// comes with 320 at an input where there is no such order.
pub fn check_inputs(
    alloc: Global,
    seeing: &Seeing,
    names: &mut TypedNames,
    list: &[&InputDeclaration],
) -> Result<Items<TInput>, CheckFault>
    requires { names.old ≡ [] }
    ensures value { outcome.Answers (spec.inputs_typed (seen.world seeing.now) (map (λ i. i.now) list.now)) result }
    ensures names { IfOk result (λ is. names.new ≡ inputs_bound is) }
{
    let positions = order_of(alloc, list)?;
    let mut done = Items::new(alloc);
    for position in positions.as_slice() {
        let Some(declaration) = at(list, *position) else {
            continue;
        };
        let input = declare(alloc, seeing, names, declaration)?;
        done.push(input)?;
    }
    Ok(done)
}
