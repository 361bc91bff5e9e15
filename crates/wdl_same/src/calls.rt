//! The numbers of the tasks that statements call.

ghost use Rattle.std.specs.Prelude.{◌≡◌, ◌++◌, IfOk, OnOk};
ghost use Rattle.wdl_same.specs.Partners as spec;

use sqlite_items::Items;
use std::alloc::Global;
use wdl_typed::{Statement, Target};
use wdl_value::NoMemory;

fn push_target(numbers: &mut Items<u32>, target: Target) -> Result<(), NoMemory>
    ensures { OnOk result (numbers.new ≡ numbers.old ++ spec.target_numbers target) }
{
    match target {
        Target::Task(number) => {
            numbers.push(number)?;
            Ok(())
        }
        Target::Flow(_) => Ok(()),
    }
}

#[cycle(calls)]
fn push_called(numbers: &mut Items<u32>, statement: &Statement) -> Result<(), NoMemory>
    ensures { OnOk result (numbers.new ≡ numbers.old ++ spec.called statement.now) }
{
    match statement {
        Statement::Decl(_) => Ok(()),
        Statement::Call(call) => push_target(numbers, call.target),
        Statement::Scatter(scatter) => push_all_called(numbers, scatter.body.as_slice()),
        Statement::If(condition) => push_all_called(numbers, condition.body.as_slice()),
    }
}

#[cycle(calls)]
fn push_all_called(numbers: &mut Items<u32>, body: &[Statement]) -> Result<(), NoMemory>
    ensures { OnOk result (numbers.new ≡ numbers.old ++ spec.all_called body.now) }
{
    for statement in body {
        push_called(numbers, statement)?;
    }
    Ok(())
}

/// The numbers of the tasks that the statements call, one for each call, in their order.
pub fn called_by(alloc: Global, body: &[Statement]) -> Result<Items<u32>, NoMemory>
    ensures { IfOk result (λ numbers. numbers ≡ spec.all_called body.now) }
{
    let mut numbers = Items::new(alloc);
    push_all_called(&mut numbers, body)?;
    Ok(numbers)
}
