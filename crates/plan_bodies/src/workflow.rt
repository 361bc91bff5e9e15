//! Workflows that are entered (OpenWDL 1.1, "Workflow Definition"): their inputs, their body and
//! their outputs.

ghost use Rattle.std.specs.Prelude.{◌≡◌, ◌<◌, ◌≤◌, ◌+◌, ◌++◌, ◌∷◌, [], ◌^◌, length, IfOk, OnOk};
ghost use Rattle.std.specs.List.{All};
ghost use Rattle.wdl_typed.specs.Declarations.{plain_key};
ghost use Rattle.wdl_typed.specs.Scope.{lookup as found};
ghost use Rattle.value_net.specs.Nets.{IsSound, view, with_step};
ghost use Rattle.plan_growth.specs.Entering as entering;
ghost use Rattle.plan_bodies.specs.Plots.{cell_count, plot};
ghost use Rattle.plan_room.specs.Reached.{AreReached};
ghost use Rattle.plan_room.specs.Room.{AreDonesWithin, HasFlowRoom};

use crate::address::cells_of;
use crate::entered::{Entered, Net};
use crate::entering::{add_instance, push_dones};
use plan_growth::Rule;
use plan_layout::{BodyLayout, FlowLayout, Need};
use std::alloc::Global;
use wdl_eval::{Measured, lookup};
use wdl_typed::{FlowDef, TInput};
use wdl_value::{Env, Items, Key, Name, NoMemory, Place, Value};

/// A copy of the value that is given for a name.
fn given_value(alloc: Global, given: &Env, name: &Name) -> Result<Option<Value>, NoMemory>
    ensures { IfOk result (λ value. value ≡ found given.now (plain_key name.now)) }
{
    let key = Key::plain(alloc, name)?;
    match lookup(given.as_slice(), &key) {
        Some(value) => Ok(Some(value.copy(alloc)?)),
        None => Ok(None),
    }
}

/// Adds a step that needs names of the workflow's own body, whose cells begin at the first.
fn add_own_step(
    alloc: Global,
    rule: Rule,
    first: usize,
    needs: &[Need],
    net: &mut Net,
) -> Result<(), NoMemory>
    requires reached { AreReached (cell_count (view net.old)) (first ∷ []) needs.now }
    requires sound { IsSound net.old }
    ensures sound { OnOk result (IsSound net.new) }
    ensures step { OnOk result (view net.new ≡ with_step (view net.old) rule (entering.cells_of (first ∷ []) needs.now [])) }
{
    let cells = cells_of(alloc, &[first], needs, &[])?;
    net.add_step(rule, cells.as_slice())?;
    Ok(())
}

/// Makes an input that was left out undefined, or adds the step of its default.
fn add_default(
    alloc: Global,
    input: &TInput,
    rule: Rule,
    cell: usize,
    first: usize,
    needs: &[Need],
    net: &mut Net,
) -> Result<(), NoMemory>
    requires cell { cell < cell_count (view net.old) }
    requires reached { AreReached (cell_count (view net.old)) (first ∷ []) needs.now }
    requires sound { IsSound net.old }
    ensures sound { OnOk result (IsSound net.new) }
    ensures input { OnOk result (view net.new ≡ entering.with_default rule cell first needs.now input.now.value (view net.old)) }
{
    match &input.value {
        Some(_) => add_own_step(alloc, rule, first, needs, net),
        None => {
            net.set(cell, Measured::new(Value::Absent))?;
            Ok(())
        }
    }
}

/// Sets the cell of an input that is given or undefined, or adds the step of its default.
fn add_input(
    alloc: Global,
    input: &TInput,
    given: &Env,
    rule: Rule,
    cell: usize,
    first: usize,
    needs: &[Need],
    net: &mut Net,
) -> Result<(), NoMemory>
    requires cell { cell < cell_count (view net.old) }
    requires reached { AreReached (cell_count (view net.old)) (first ∷ []) needs.now }
    requires sound { IsSound net.old }
    ensures sound { OnOk result (IsSound net.new) }
    ensures input { OnOk result (view net.new ≡ entering.with_given rule cell first needs.now input.now.value (found given.now (plain_key input.now.name)) (view net.old)) }
{
    match given_value(alloc, given, &input.name)? {
        Some(value) => {
            net.set(cell, Measured::new(value))?;
            Ok(())
        }
        None => add_default(alloc, input, rule, cell, first, needs, net),
    }
}

/// The inputs of a workflow, whose cells begin at the first.
fn add_inputs(
    alloc: Global,
    inputs: &[TInput],
    given: &Env,
    instance: usize,
    first: usize,
    needs: &[Items<Need>],
    net: &mut Net,
) -> Result<(), NoMemory>
    requires cells { first + length inputs.now ≤ cell_count (view net.old) }
    requires pairs { length needs.now ≡ length inputs.now }
    requires reached { All (AreReached (cell_count (view net.old)) (first ∷ [])) needs.now }
    requires sound { IsSound net.old }
    ensures sound { OnOk result (IsSound net.new) }
    ensures inputs { OnOk result (view net.new ≡ entering.with_inputs given.now instance first 0 inputs.now needs.now (view net.old)) }
{
    for (input, it) in inputs.iter().enumerate() {
        let rule = Rule::Input { instance, input };
        let needs = needs[input].as_slice();
        add_input(alloc, it, given, rule, first + input, first, needs, net)?;
    }
    Ok(())
}

/// A step for each output of a workflow, whose cells begin at the first.
fn add_outputs(
    alloc: Global,
    outputs: &[Items<Need>],
    instance: usize,
    first: usize,
    net: &mut Net,
) -> Result<(), NoMemory>
    requires reached { All (AreReached (cell_count (view net.old)) (first ∷ [])) outputs.now }
    requires sound { IsSound net.old }
    ensures sound { OnOk result (IsSound net.new) }
    ensures outputs { OnOk result (view net.new ≡ entering.with_outputs instance first 0 outputs.now (view net.old)) }
{
    for (output, needs) in outputs.iter().enumerate() {
        let rule = Rule::Output { instance, output };
        add_own_step(alloc, rule, first, needs.as_slice(), net)?;
    }
    Ok(())
}

/// Adds so many cells from one on.
fn push_cells(first: usize, count: usize, dones: &mut Items<usize>) -> Result<(), NoMemory>
    requires { first + count < 2 ^ 64 }
    ensures { OnOk result (dones.new ≡ dones.old ++ entering.cells_from first count) }
{
    for k in 0..count {
        dones.push(first + k)?;
    }
    Ok(())
}

/// The cells that say that all of a workflow is done, whose cells begin at the first.
pub fn flow_dones(
    alloc: Global,
    flow: &FlowDef,
    layout: &FlowLayout,
    body: &BodyLayout,
    first: usize,
) -> Result<Items<usize>, NoMemory>
    requires cells { first + body.now.cells < 2 ^ 64 }
    requires inputs { length flow.now.inputs ≤ body.now.cells }
    requires outputs { layout.now.first_output + length flow.now.outputs ≤ body.now.cells }
    requires dones { AreDonesWithin body.now.cells body.now.statements }
    ensures { IfOk result (λ dones. dones ≡ entering.flow_dones flow.now layout.now body.now first) }
{
    let mut dones = Items::new(alloc);
    push_cells(first, flow.inputs.len(), &mut dones)?;
    push_dones(first, body.statements.as_slice(), &mut dones)?;
    push_cells(first + layout.first_output, flow.outputs.len(), &mut dones)?;
    Ok(dones)
}

/// Enters a workflow at a place with the inputs that are given. Answers its first cell.
pub fn enter_flow(
    alloc: Global,
    flow: &FlowDef,
    given: &Env,
    place: Place,
    layout: &FlowLayout,
    body: &BodyLayout,
    entered: &mut Entered,
) -> Result<usize, NoMemory>
    requires room { HasFlowRoom (cell_count (view entered.old.net)) flow.now layout.now body.now }
    requires sound { IsSound entered.old.net }
    ensures sound { OnOk result (IsSound entered.new.net) }
    ensures first { IfOk result (λ first. first ≡ cell_count (view entered.old.net)) }
    ensures entered { OnOk result (plot entered.new ≡ entering.with_flow flow.now given.now place layout.now body.now (plot entered.old)) }
{
    let instance = entered.instances.len();
    let first = add_instance(alloc, layout.body, &[], place, body, entered)?;
    let needs = layout.inputs.as_slice();
    let net = &mut entered.net;
    add_inputs(
        alloc,
        flow.inputs.as_slice(),
        given,
        instance,
        first,
        needs,
        net,
    )?;
    add_outputs(alloc, layout.outputs.as_slice(), instance, first, net)?;
    Ok(first)
}
