//! The subset of checked forms that have a CWL process.

ghost use Rattle.std.specs.Prelude.{◌≡◌, IfErr, IfOk, IsSome, true};
ghost use Rattle.wdl_typed.specs.Bodies.{library};
ghost use Rattle.cwl_image.specs.Kept.{is_kept};
ghost use Rattle.cwl_subset.specs.Refusals as spec;
ghost use Rattle.cwl_subset.specs.declared.subset.SubsetFault.TheVariants.{NoMemory as OutOfMemory};

use crate::flow::flows_broken;
use crate::tables::{entry, reached_table};
use crate::task::tasks_broken;
use cwl_image::Broken;
use cwl_rules::see_names;
use std::alloc::Global;
use thiserror::Error;
use wdl_names::Indexed;
use wdl_typed::Checked;
use wdl_value::{NoMemory, Span};

/// Why a checked form is not in the subset.
#[derive(Clone, Copy, Debug, PartialEq, Eq, Error)]
pub enum SubsetFault {
    /// The lowest of the rules 601 to 613 that is broken in what the main workflow reaches, and a
    /// place where it is.
    #[error("rule {rule} of the CWL subset is broken")]
    NotInSubset { rule: u16, span: Span },
    #[error("out of memory")]
    NoMemory,
}

impl From<NoMemory> for SubsetFault {
    ghost from_gives = { λ _ e. e ≡ OutOfMemory };

    fn from(_e: NoMemory) -> SubsetFault {
        SubsetFault::NoMemory
    }
}

/// A checked form whose main workflow breaks no rule of the subset and reaches nothing that does
/// (CWL v1.2 has a process for it). It keeps too that each of its names is one.
#[derive(Debug, Drop)]
pub struct Subset {
    pub checked: Checked,
    pub ghost kept: { is_kept (library checked.structs checked.tasks checked.flows) checked.main ≡ true },
}

impl Subset {
    /// The checked form. It takes no memory.
    pub fn checked(&self) -> &Checked
        ensures checked { result.now ≡ self.now.checked }
        ensures kept { is_kept (library result.now.structs result.now.tasks result.now.flows) result.now.main ≡ true }
    {
        &self.checked
    }
}

/// The lowest rule that the main workflow or what it reaches breaks.
fn lowest_in(alloc: Global, checked: &Checked) -> Result<Option<Broken>, NoMemory>
    ensures { IfOk result (λ b. b ≡ spec.lowest_in (library checked.now.structs checked.now.tasks checked.now.flows) checked.now.main) }
{
    let Some(main) = checked.main else {
        return Ok(None);
    };
    let structs = Indexed::new(alloc, checked.structs.as_slice())?;
    let flows = checked.flows.as_slice();
    let tasks = checked.tasks.as_slice();
    let task_table = tasks_broken(alloc, tasks, &structs)?;
    let own = flows_broken(alloc, &structs, tasks, flows)?;
    let table = reached_table(alloc, flows, own.as_slice(), task_table.as_slice())?;
    Ok(entry(table.as_slice(), main as usize))
}

/// The checked form as one of the subset. It is refused as `NotInSubset` exactly where a rule is
/// broken.
#[tactic(auto, using(crate::proofs::RuleLemmas::form_is_kept, crate::proofs::RuleLemmas::form_is_refused))]
pub fn in_subset(alloc: Global, checked: Checked) -> Result<Subset, SubsetFault>
    requires main { IsSome checked.main }
    ensures value { IfOk result (λ s. s.checked ≡ checked) }
    ensures refused { IfErr result (λ e. spec.Refuses (library checked.structs checked.tasks checked.flows) checked.main e) }
{
    if let Some(broken) = lowest_in(alloc, &checked)? {
        return Err(SubsetFault::NotInSubset {
            rule: broken.rule,
            span: broken.span,
        });
    }
    see_names(checked.tasks.as_slice(), checked.flows.as_slice());
    Ok(Subset { checked })
}
