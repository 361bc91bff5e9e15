//! The names of a library.

ghost use Rattle.std.specs.Prelude.{◌≡◌, ◌&&◌, true};
ghost use Rattle.std.specs.List.{list_all};
ghost use Rattle.wdl_base.specs.Names.{is_name};
ghost use Rattle.wdl_typed.specs.Declarations as declarations;
ghost use Rattle.wdl_typed.specs.Bodies as bodies;
ghost use Rattle.cwl_image.specs.Named as spec;

use wdl_typed::{FlowDef, Statement, TDecl, TExpr, TField, TInput, TaskDef};
use wdl_value::Name;

/// A name is a NAME.
fn see(name: &Name)
    ensures { is_name name.now ≡ true }
{
    let _text = name.as_str();
}

fn see_inputs(inputs: &[TInput])
    ensures { spec.are_names (declarations.input_names inputs.now) ≡ true }
{
    for input in inputs {
        see(&input.name);
    }
}

fn see_decls(decls: &[TDecl])
    ensures { spec.are_names (declarations.decl_names decls.now) ≡ true }
{
    for d in decls {
        see(&d.name);
    }
}

fn see_args(args: &[TField<TExpr>])
    ensures { spec.are_names (bodies.arg_names args.now) ≡ true }
{
    for arg in args {
        see(&arg.name);
    }
}

#[cycle(named)]
fn see_statement(statement: &Statement)
    ensures { spec.statement_named statement.now ≡ true }
{
    match statement {
        Statement::Decl(d) => see(&d.name),
        Statement::Call(c) => {
            see(&c.name);
            see_args(c.args.as_slice());
        }
        Statement::Scatter(s) => {
            see(&s.item);
            see_body(s.body.as_slice());
        }
        Statement::If(i) => see_body(i.body.as_slice()),
    }
}

#[cycle(named)]
fn see_body(body: &[Statement])
    ensures { spec.body_named body.now ≡ true }
{
    for statement in body {
        see_statement(statement);
    }
}

fn see_task(task: &TaskDef)
    ensures { spec.task_named task.now ≡ true }
{
    see_inputs(task.inputs.as_slice());
    see_decls(task.privates.as_slice());
    see_decls(task.outputs.as_slice());
}

fn see_flow(flow: &FlowDef)
    ensures { spec.flow_named flow.now ≡ true }
{
    see_inputs(flow.inputs.as_slice());
    see_body(flow.body.as_slice());
    see_decls(flow.outputs.as_slice());
}

fn see_tasks(tasks: &[TaskDef])
    ensures { list_all spec.task_named tasks.now ≡ true }
{
    for task in tasks {
        see_task(task);
    }
}

fn see_flows(flows: &[FlowDef])
    ensures { list_all spec.flow_named flows.now ≡ true }
{
    for flow in flows {
        see_flow(flow);
    }
}

/// Each name of a library is a NAME. The walk only tells this to the proof.
pub fn see_names(tasks: &[TaskDef], flows: &[FlowDef])
    ensures { (list_all spec.task_named tasks.now && list_all spec.flow_named flows.now) ≡ true }
{
    see_tasks(tasks);
    see_flows(flows);
}
