//! Which tasks are called.

ghost use Rattle.std.specs.Prelude.{◌≡◌, false, replicate, IfOk};
ghost use Rattle.wdl_bundle.specs.Called as spec;

use crate::calls::Met;
use crate::reach::Callee;
use std::alloc::Global;
use wdl_value::NoMemory;

#[tactic(auto, using(crate::proofs::MarkLaws::past))]
fn mark(marks: &mut Vec<bool>, callee: Option<Callee>)
    ensures { marks.new.items ≡ spec.mark marks.old.items callee }
{
    if let Some(Callee::Task(at)) = callee {
        if at < marks.len() {
            marks[at] = true;
        }
    }
}

/// A mark for each of so many tasks, which is set where a call names it.
pub fn marks_of(alloc: Global, count: usize, calls: &[Met]) -> Result<Vec<bool>, NoMemory>
    ensures { IfOk result (λ ms. ms.items ≡ spec.marked (replicate count false) calls.now) }
{
    let mut marks = vec![in alloc; false; count]?;
    for call in calls {
        mark(&mut marks, call.callee);
    }
    Ok(marks)
}

/// Whether the mark at that place is set.
pub fn is_set(marks: &[bool], at: usize) -> bool
    ensures { result ≡ spec.is_set marks.now at }
{
    match marks.get(at) {
        Some(mark) => *mark,
        None => false,
    }
}
