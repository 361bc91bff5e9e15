//! The flow of statements, from the first to the last (OpenWDL 1.1, "Workflow Definition").

ghost use Rattle.std.specs.Prelude.{◌≡◌, ◌<◌, ◌-◌, true, Some, IfOk, slice_get};
ghost use Rattle.wdl_base.specs.declared.place.Segment.TheVariants as segment;
ghost use Rattle.wdl_typed.specs.declared.flow.Statement.TheVariants as statement;
ghost use Rattle.wdl_typed.specs.declared.task.TaskDef.{TaskDef};
ghost use Rattle.wdl_typed.specs.Declarations.{task_typed};
ghost use Rattle.wdl_typed.specs.Flow as flow;
ghost use Rattle.wdl_task.specs.Readiness.{are_given};
ghost use Rattle.wdl_plain.specs.Flows.{Flows};
ghost use Rattle.wdl_flow.specs.Views.{given_of};
ghost use Rattle.wdl_plain.specs.Views.{env_in, flowing_of, run_of, sight_of};
ghost use Rattle.flow_soundness.specs.Readiness.{
  AreItemsReady,
  IsBodyReady,
  IsCalleeReady,
  IsFlowReady,
  IsStatementReady,
};
ghost use Rattle.flow_soundness.specs.StatementFlow as statements;
ghost use Rattle.wdl_plain.specs.Walk as spec;

use crate::arguments::{args_met, may_begin};
use crate::attempt::{TaskCall, failed, task_flow};
use crate::blocks::{
    body_names, call_names, call_place, enter_item, failed_if, failed_scatter, is_true,
};
use crate::callee::{flow_ended, names_of};
use crate::declaration::{declaration, inputs, outputs};
use crate::fault::PlainFault;
use crate::flowing::Flowing;
use crate::gathering::Gathering;
use crate::giving::{giving, missing};
use crate::ground::Ground;
use crate::known_names::KnownNames;
use crate::referring::may_evaluate;
use crate::sight::Sight;
use crate::valued::value_now;
use std::alloc::Global;
use std::sync::ledger::Ledger;
use wdl_eval::EvalFault;
use wdl_flow::Yielded;
use wdl_stdlib::items_in;
use wdl_task::CallFault;
use wdl_typed::{FlowDef, Statement, TCall, TIf, TScatter, Target};
use wdl_value::{Env, Place, Segment, Steps, Value};

/// How many blocks and calls may still stand in one another, and how deep workflows may still call
/// workflows.
#[derive(Clone, Copy, Debug)]
pub struct Reach {
    pub levels: u32,
    pub calls: u32,
}

impl Reach {
    fn inward(self) -> Reach
        requires { 0 < self.levels }
        ensures levels { result.levels ≡ self.levels - 1 }
        ensures calls { result.calls ≡ self.calls }
    {
        Reach {
            levels: self.levels - 1,
            calls: self.calls,
        }
    }
}

#[cycle(walk)]
fn statement_flow<'a, L: Ledger>(
    alloc: Global,
    statement: &Statement,
    reach: Reach,
    ground: &Ground<'a>,
    sight: &mut Sight,
    steps: &mut Steps<L>,
) -> Result<Flowing, PlainFault>
    requires ready { IsStatementReady (run_of ground.now).library reach.levels statement.now (sight_of sight.old) }
    ensures flow { Flows (statements.statement_flow (run_of ground.now) reach.calls statement.now (sight_of sight.old)) result }
    ensures kept { IfOk result (λ f. sight_of sight.new ≡ sight_of sight.old) }
{
    match statement {
        Statement::Decl(d) => Ok(declaration(alloc, &d.name, &d.value, sight, steps)?),
        Statement::Call(call) => call_flow(alloc, call, reach, ground, sight, steps),
        Statement::Scatter(scatter) => scatter_flow(alloc, scatter, reach, ground, sight, steps),
        Statement::If(condition) => if_flow(alloc, condition, reach, ground, sight, steps),
    }
}

#[cycle(walk)]
fn call_flow<'a, L: Ledger>(
    alloc: Global,
    call: &TCall,
    reach: Reach,
    ground: &Ground<'a>,
    sight: &mut Sight,
    steps: &mut Steps<L>,
) -> Result<Flowing, PlainFault>
    requires ready { IsStatementReady (run_of ground.now).library reach.levels (statement.Call call.now) (sight_of sight.old) }
    ensures flow { Flows (spec.call_flow (run_of ground.now) reach.calls call.now (sight_of sight.old)) result }
    ensures kept { IfOk result (λ f. sight_of sight.new ≡ sight_of sight.old) }
{
    let given = call_names(alloc, call, ground)?;
    let may = may_begin(alloc, call, sight)?;
    if !may {
        return Ok(missing(alloc, given)?);
    }
    let place = call_place(alloc, &sight.place, &call.name)?;
    match args_met(alloc, call.args.as_slice(), &sight.names, steps) {
        Ok(args) => called(alloc, call, given, args, place, reach, ground, steps),
        Err(CallFault::Bad { name, why }) => Ok(failed(alloc, &place, name, why, given)?),
        Err(CallFault::NoMemory) => Err(PlainFault::NoMemory),
    }
}

/// A call whose arguments are there.
#[cycle(walk)]
fn called<'a, L: Ledger>(
    alloc: Global,
    call: &TCall,
    given: Yielded,
    args: Env,
    place: Place,
    reach: Reach,
    ground: &Ground<'a>,
    steps: &mut Steps<L>,
) -> Result<Flowing, PlainFault>
    requires given { given_of given ≡ spec.call_names (run_of ground.now) call.now }
    requires ready { IsCalleeReady (run_of ground.now).library reach.levels call.now.target args }
    ensures { Flows (flow.called (run_of ground.now) (flow.flow (run_of ground.now) reach.calls) (spec.call_names (run_of ground.now) call.now) place call.now args call.now.target) result }
{
    match call.target {
        Target::Task(k) => task_called(alloc, call, k, given, &args, &place, ground, steps),
        Target::Flow(k) => flow_called(alloc, call, k, given, args, place, reach, ground, steps),
    }
}

/// A call of a task of the library.
fn task_called<'a, L: Ledger>(
    alloc: Global,
    call: &TCall,
    k: u32,
    given: Yielded,
    args: &Env,
    place: &Place,
    ground: &Ground<'a>,
    steps: &mut Steps<L>,
) -> Result<Flowing, PlainFault>
    requires ready { (t : TaskDef) → slice_get ground.now.checked.now.tasks k ≡ Some t → (task_typed ground.now.checked.now.structs t ≡ true) × (are_given ground.now.checked.now.structs t.inputs args.now ≡ true) }
    ensures { Flows (flow.task_called (run_of ground.now) (given_of given) place.now call.now.name args.now (slice_get ground.now.checked.now.tasks k)) result }
{
    let Some(task) = ground.checked.tasks.get(k as usize) else {
        return Ok(missing(alloc, given)?);
    };
    let call = TaskCall {
        task,
        name: &call.name,
        place,
    };
    task_flow(alloc, &call, given, args, ground, steps)?.within()
}

/// A call of a workflow of the library.
#[cycle(walk)]
fn flow_called<'a, L: Ledger>(
    alloc: Global,
    call: &TCall,
    k: u32,
    given: Yielded,
    args: Env,
    place: Place,
    reach: Reach,
    ground: &Ground<'a>,
    steps: &mut Steps<L>,
) -> Result<Flowing, PlainFault>
    requires inside { 0 < reach.levels }
    requires ready { IsFlowReady (run_of ground.now).library (reach.levels - 1) k args }
    ensures { Flows (flow.flow_called (flow.flow (run_of ground.now) reach.calls) (given_of given) place call.now.name args k (slice_get ground.now.checked.now.flows k)) result }
{
    let Some(def) = ground.checked.flows.get(k as usize) else {
        return Ok(missing(alloc, given)?);
    };
    let args = names_of(alloc, args.as_slice())?;
    let flow = flow_of(alloc, k, &args, place, reach.inward(), ground, steps)?;
    Ok(flow_ended(alloc, &call.name, def.outputs.as_slice(), flow)?)
}

#[cycle(walk)]
fn scatter_flow<'a, L: Ledger>(
    alloc: Global,
    scatter: &TScatter<Statement>,
    reach: Reach,
    ground: &Ground<'a>,
    sight: &mut Sight,
    steps: &mut Steps<L>,
) -> Result<Flowing, PlainFault>
    requires ready { IsStatementReady (run_of ground.now).library reach.levels (statement.Scatter scatter.now) (sight_of sight.old) }
    ensures flow { Flows (spec.scatter_flow (run_of ground.now) reach.calls scatter.now (sight_of sight.old)) result }
    ensures kept { IfOk result (λ f. sight_of sight.new ≡ sight_of sight.old) }
{
    let given = body_names(alloc, scatter.body.as_slice(), ground)?;
    let known = may_evaluate(alloc, &scatter.over, &sight.names)?;
    if !known {
        return Ok(missing(alloc, given)?);
    }
    match value_now(alloc, &scatter.over, &sight.names, steps) {
        Ok(value) => {
            let items = items_in(&value);
            scattered(alloc, scatter, given, items, reach, ground, sight, steps)
        }
        Err(EvalFault::Code(code)) => {
            Ok(failed_scatter(alloc, scatter, &sight.place, code, given)?)
        }
        Err(EvalFault::NoMemory) => Err(PlainFault::NoMemory),
    }
}

/// A body without statements is not entered item by item.
#[cycle(walk)]
fn scattered<'a, L: Ledger>(
    alloc: Global,
    scatter: &TScatter<Statement>,
    given: Yielded,
    items: &[Value],
    reach: Reach,
    ground: &Ground<'a>,
    sight: &mut Sight,
    steps: &mut Steps<L>,
) -> Result<Flowing, PlainFault>
    requires given { given_of given ≡ flow.body_names (spec.parts_of (run_of ground.now) reach.calls scatter.now.body) }
    requires ready { AreItemsReady (run_of ground.now).library reach.levels scatter.now items.now (sight_of sight.old) }
    ensures flow { Flows (spec.scattered (run_of ground.now) reach.calls scatter.now items.now (sight_of sight.old)) result }
    ensures kept { IfOk result (λ f. sight_of sight.new ≡ sight_of sight.old) }
{
    if scatter.body.len() == 0 {
        return Ok(Flowing::counted(alloc, 0));
    }
    let mut gathering = Gathering::empty(alloc);
    for i in 0..items.len() {
        let flow = item_flow(alloc, scatter, i, &items[i], reach, ground, sight, steps)?;
        gathering = gathering.with(alloc, flow)?;
    }
    Ok(gathering.gathered(alloc, &given)?)
}

#[cycle(walk)]
fn item_flow<'a, L: Ledger>(
    alloc: Global,
    scatter: &TScatter<Statement>,
    index: usize,
    item: &Value,
    reach: Reach,
    ground: &Ground<'a>,
    sight: &mut Sight,
    steps: &mut Steps<L>,
) -> Result<Flowing, PlainFault>
    requires inside { 0 < reach.levels }
    requires ready { IsBodyReady (run_of ground.now).library (reach.levels - 1) scatter.now.body (spec.item_sight scatter.now index item.now (sight_of sight.old)) }
    ensures flow { Flows (spec.body_flow (run_of ground.now) reach.calls scatter.now.body (spec.item_sight scatter.now index item.now (sight_of sight.old))) result }
    ensures kept { IfOk result (λ f. sight_of sight.new ≡ sight_of sight.old) }
{
    let mark = sight.mark();
    enter_item(alloc, scatter.number, index, &scatter.item, item, sight)?;
    let flow = body_flow(
        alloc,
        scatter.body.as_slice(),
        reach.inward(),
        ground,
        sight,
        steps,
    )?;
    sight.back_to(mark);
    Ok(flow)
}

#[cycle(walk)]
fn if_flow<'a, L: Ledger>(
    alloc: Global,
    condition: &TIf<Statement>,
    reach: Reach,
    ground: &Ground<'a>,
    sight: &mut Sight,
    steps: &mut Steps<L>,
) -> Result<Flowing, PlainFault>
    requires ready { IsStatementReady (run_of ground.now).library reach.levels (statement.If condition.now) (sight_of sight.old) }
    ensures flow { Flows (spec.if_flow (run_of ground.now) reach.calls condition.now (sight_of sight.old)) result }
    ensures kept { IfOk result (λ f. sight_of sight.new ≡ sight_of sight.old) }
{
    let given = body_names(alloc, condition.body.as_slice(), ground)?;
    let known = may_evaluate(alloc, &condition.cond, &sight.names)?;
    if !known {
        return Ok(missing(alloc, given)?);
    }
    match value_now(alloc, &condition.cond, &sight.names, steps) {
        Ok(value) => {
            if !is_true(&value) {
                return Ok(giving(alloc, given, &Some(Value::Absent), true)?);
            }
            chosen(alloc, condition, reach, ground, sight, steps)
        }
        Err(EvalFault::Code(code)) => {
            Ok(failed_if(alloc, condition.number, &sight.place, code, given)?)
        }
        Err(EvalFault::NoMemory) => Err(PlainFault::NoMemory),
    }
}

/// A condition that holds.
#[cycle(walk)]
fn chosen<'a, L: Ledger>(
    alloc: Global,
    condition: &TIf<Statement>,
    reach: Reach,
    ground: &Ground<'a>,
    sight: &mut Sight,
    steps: &mut Steps<L>,
) -> Result<Flowing, PlainFault>
    requires inside { 0 < reach.levels }
    requires ready { IsBodyReady (run_of ground.now).library (reach.levels - 1) condition.now.body (flow.inside (sight_of sight.old) (segment.If condition.now.number)) }
    ensures flow { Flows (spec.body_flow (run_of ground.now) reach.calls condition.now.body (flow.inside (sight_of sight.old) (segment.If condition.now.number))) result }
    ensures kept { IfOk result (λ f. sight_of sight.new ≡ sight_of sight.old) }
{
    let mark = sight.mark();
    sight.place.push(Segment::If(condition.number))?;
    let flow = body_flow(
        alloc,
        condition.body.as_slice(),
        reach.inward(),
        ground,
        sight,
        steps,
    )?;
    sight.back_to(mark);
    Ok(flow)
}

/// Each statement of a body that is entered counts once.
#[cycle(walk)]
fn body_flow<'a, L: Ledger>(
    alloc: Global,
    body: &[Statement],
    reach: Reach,
    ground: &Ground<'a>,
    sight: &mut Sight,
    steps: &mut Steps<L>,
) -> Result<Flowing, PlainFault>
    requires ready { IsBodyReady (run_of ground.now).library reach.levels body.now (sight_of sight.old) }
    ensures flow { Flows (spec.body_flow (run_of ground.now) reach.calls body.now (sight_of sight.old)) result }
    ensures seen { IfOk result (λ f. sight_of sight.new ≡ flow.seeing (sight_of sight.old) (flowing_of f)) }
{
    let mut total = Flowing::counted(alloc, body.len() as u64).within()?;
    for statement in body {
        let more = statement_flow(alloc, statement, reach, ground, sight, steps)?;
        sight.enter(alloc, &more)?;
        total = total.and(more)?;
    }
    Ok(total)
}

/// The flow of a workflow for the inputs that are given, at a place.
#[cycle(walk)]
pub fn flow_of<'a, L: Ledger>(
    alloc: Global,
    k: u32,
    given: &KnownNames,
    place: Place,
    reach: Reach,
    ground: &Ground<'a>,
    steps: &mut Steps<L>,
) -> Result<Flowing, PlainFault>
    requires ready { IsFlowReady (run_of ground.now).library reach.levels k (env_in given.now) }
    ensures { Flows (flow.flow (run_of ground.now) reach.calls k (env_in given.now) place) result }
{
    if reach.calls == 0 {
        return Ok(Flowing::counted(alloc, 0));
    }
    let Some(def) = ground.checked.flows.get(k as usize) else {
        return Ok(Flowing::counted(alloc, 0));
    };
    let reach = Reach {
        levels: reach.levels,
        calls: reach.calls - 1,
    };
    flow_in(alloc, k, def, given, place, reach, ground, steps)
}

/// The inputs of a workflow, its body and its outputs.
#[cycle(walk)]
fn flow_in<'a, L: Ledger>(
    alloc: Global,
    k: u32,
    def: &FlowDef,
    given: &KnownNames,
    place: Place,
    reach: Reach,
    ground: &Ground<'a>,
    steps: &mut Steps<L>,
) -> Result<Flowing, PlainFault>
    requires ready { IsFlowReady (run_of ground.now).library reach.levels k (env_in given.now) }
    requires there { slice_get ground.now.checked.now.flows k ≡ Some def.now }
    ensures { Flows (flow.flow_run (run_of ground.now) (flow.flow (run_of ground.now) reach.calls) def.now (env_in given.now) (flow.beginning place)) result }
{
    let mut sight = Sight::beginning(alloc, place);
    let taken = inputs(alloc, def.inputs.as_slice(), given, &mut sight, steps)?;
    let made = body_flow(alloc, def.body.as_slice(), reach, ground, &mut sight, steps)?;
    let told = outputs(alloc, def.outputs.as_slice(), &mut sight, steps)?;
    taken.and(made)?.and(told)
}
