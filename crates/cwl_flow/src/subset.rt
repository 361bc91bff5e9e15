//! The process of the main workflow of a checked form (CWL v1.2, Workflow).

ghost use Rattle.std.specs.Prelude.{◌≡◌, IfOk, Some};
ghost use Rattle.cwl_flow.specs.Drafts as draft;

use crate::flow::process_at;
use cwl_model::Process;
use cwl_subset::Subset;
use std::alloc::Global;
use wdl_value::NoMemory;

/// How many workflows stand at most on one path of calls, the main one included.
const DEPTH: u32 = 25;

/// The process of the main workflow (CWL v1.2, Workflow): the image of the checked form.
///
/// # Errors
///
/// `NoMemory` alone.
pub fn translate(alloc: Global, subset: &Subset) -> Result<Process, NoMemory>
    ensures { IfOk result (λ p. draft.image_of (draft.library_of subset.now.checked) subset.now.checked.main ≡ Some p) }
{
    let checked = subset.checked();
    match checked.main {
        Some(main) => process_at(alloc, checked, DEPTH, main),
        None => unreachable!(),
    }
}
