//! The tasks and workflows of a library as calls see them.

ghost use Rattle.std.specs.Prelude.{◌≡◌, map, IfOk};
ghost use Rattle.wdl_check_flow.specs.Targets.{offer_of};
ghost use Rattle.wdl_check_doc.specs.Offered as held;
ghost use Rattle.wdl_check_doc.specs.Offers as spec;
ghost use Rattle.wdl_check_doc.specs.Runnables.{headed_of};

use crate::runnable::Headed;
use std::alloc::Global;
use wdl_check_flow::Callable;
use wdl_names::Indexed;
use wdl_typed::{TDecl, TInput, Target, TaskDef};
use wdl_value::{Items, Member, Name, NoMemory};

/// A task or a workflow, with its inputs by an index, and the names and types of its outputs.
#[derive(Drop)]
pub struct Offered<'a> {
    pub name: &'a Name,
    pub target: Target,
    pub inputs: Indexed<'a, TInput>,
    pub outputs: Items<Member>,
}

fn result_of(alloc: Global, output: &TDecl) -> Result<Member, NoMemory>
    ensures { IfOk result (λ m. m ≡ spec.result_of output.now) }
{
    let name = output.name.copy(alloc)?;
    Ok(Member {
        name,
        ty: output.ty.copy(alloc)?,
    })
}

fn results_of(alloc: Global, outputs: &[TDecl]) -> Result<Items<Member>, NoMemory>
    ensures { IfOk result (λ ms. ms ≡ map spec.result_of outputs.now) }
{
    let mut results = Items::new(alloc);
    for output in outputs {
        results.push(result_of(alloc, output)?)?;
    }
    Ok(results)
}

fn copy_of(alloc: Global, member: &Member) -> Result<Member, NoMemory>
    ensures { IfOk result (λ m. m ≡ member.now) }
{
    let name = member.name.copy(alloc)?;
    Ok(Member {
        name,
        ty: member.ty.copy(alloc)?,
    })
}

/// A copy of the names and types of members.
pub fn copies_of(alloc: Global, members: &[Member]) -> Result<Items<Member>, NoMemory>
    ensures { IfOk result (λ ms. ms ≡ members.now) }
{
    let mut copies = Items::new(alloc);
    for member in members {
        copies.push(copy_of(alloc, member)?)?;
    }
    Ok(copies)
}

fn offered_task<'a>(alloc: Global, task: &'a TaskDef, number: u32) -> Result<Offered<'a>, NoMemory>
    ensures { IfOk result (λ o. held.offer_of o ≡ spec.task_offer number task.now) }
{
    let outputs = results_of(alloc, task.outputs.as_slice())?;
    Ok(Offered {
        name: &task.name,
        target: Target::Task(number),
        inputs: Indexed::new(alloc, task.inputs.as_slice())?,
        outputs,
    })
}

fn offered_flow<'a>(alloc: Global, headed: &'a Headed, number: u32) -> Result<Offered<'a>, NoMemory>
    ensures { IfOk result (λ o. held.offer_of o ≡ spec.flow_offer number (headed_of headed.now)) }
{
    let outputs = copies_of(alloc, headed.head.outputs.as_slice())?;
    Ok(Offered {
        name: &headed.flow.workflow.name.name,
        target: Target::Flow(number),
        inputs: Indexed::new(alloc, headed.head.inputs.as_slice())?,
        outputs,
    })
}

/// The tasks, with numbers from 0 on.
pub fn offered_tasks<'a>(alloc: Global, tasks: &'a [TaskDef]) -> Result<Vec<Offered<'a>>, NoMemory>
    ensures { IfOk result (λ os. map held.offer_of os.items ≡ spec.task_offers 0 tasks.now) }
{
    let mut all = Vec::new(alloc);
    let mut number: u32 = 0;
    for task in tasks {
        all.push(offered_task(alloc, task, number)?)?;
        number = number.checked_add(1).ok_or(NoMemory)?;
    }
    Ok(all)
}

/// The workflows, with numbers from 0 on.
pub fn offered_flows<'a>(alloc: Global, heads: &'a [Headed]) -> Result<Vec<Offered<'a>>, NoMemory>
    ensures { IfOk result (λ os. map held.offer_of os.items ≡ spec.flow_offers 0 (map headed_of heads.now)) }
{
    let mut all = Vec::new(alloc);
    let mut number: u32 = 0;
    for headed in heads {
        all.push(offered_flow(alloc, headed, number)?)?;
        number = number.checked_add(1).ok_or(NoMemory)?;
    }
    Ok(all)
}

/// The same as a call looks them up.
pub fn callables_of<'o>(alloc: Global, offers: &'o [Offered]) -> Result<Vec<Callable<'o>>, NoMemory>
    ensures { IfOk result (λ cs. map offer_of cs.items ≡ map held.offer_of offers.now) }
{
    let mut callables = Vec::new(alloc);
    for offer in offers {
        callables.push(Callable {
            name: offer.name,
            target: offer.target,
            inputs: &offer.inputs,
            outputs: offer.outputs.as_slice(),
        })?;
    }
    Ok(callables)
}
