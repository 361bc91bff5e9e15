//! Checked forms without aliases and struct inputs.

ghost use Rattle.std.specs.Prelude.{◌≡◌, IfOk, IsSome, Some};
ghost use Rattle.cwl_records.specs.Outcomes as outcome;

use crate::leaf::RecordLeaf;
use crate::replacing::{expanded_where, leaves_where, record_leaves};
use crate::unaliased::unaliased_where;
use std::alloc::Global;
use struct_leaves::{copy_inputs, inputs_at, leaves_at, reached};
use wdl_names::Indexed;
use wdl_typed::{Checked, CheckedParts, FlowDef, TInput};
use wdl_value::{Items, NoMemory};
use wdl_well_typed::well_typed;

/// A checked form without aliases and struct inputs. `records` has the leaves of the struct inputs
/// of main that were replaced, and `source` has main's inputs as they were.
#[derive(Debug, Drop)]
pub struct Lowered {
    pub checked: Checked,
    pub records: Items<RecordLeaf>,
    pub source: Items<TInput>,
}

/// A checked form, and whether it has the workflows that were put into it.
#[derive(Debug, Drop)]
struct Tried {
    checked: Checked,
    is_new: bool,
}

/// The checked form with these workflows, where they are well typed; else as it is.
fn with_flows(alloc: Global, checked: Checked, flows: Items<FlowDef>) -> Result<Tried, NoMemory>
    ensures { IfOk result (λ t. outcome.IsTried checked flows t.checked t.is_new) }
{
    let Checked {
        structs,
        tasks,
        flows: old,
        main,
    } = checked;
    let parts = CheckedParts {
        structs,
        tasks,
        flows,
        main,
    };
    if well_typed(alloc, &parts)? {
        return Ok(Tried {
            checked: Checked::new(parts),
            is_new: true,
        });
    }
    let CheckedParts {
        structs,
        tasks,
        flows: _,
        main,
    } = parts;
    let parts = CheckedParts {
        structs,
        tasks,
        flows: old,
        main,
    };
    Ok(Tried {
        checked: Checked::new(parts),
        is_new: false,
    })
}

fn flows_without_aliases(
    alloc: Global,
    checked: &Checked,
    main: u32,
) -> Result<Items<FlowDef>, NoMemory>
    ensures { IfOk result (λ fs. fs ≡ outcome.flows_without_aliases (outcome.library_of checked.now) main) }
{
    let structs = Indexed::new(alloc, checked.structs.as_slice())?;
    let flows = checked.flows.as_slice();
    let marks = reached(alloc, flows, main as usize)?;
    unaliased_where(
        alloc,
        &structs,
        checked.tasks.as_slice(),
        flows,
        marks.as_slice(),
    )
}

/// The workflows with leaves in the places of struct inputs, with all leaves and those of main.
#[derive(Debug, Drop)]
struct Replacing {
    flows: Items<FlowDef>,
    records: Items<RecordLeaf>,
}

fn flows_with_leaves(
    alloc: Global,
    checked: &Checked,
    main: u32,
) -> Result<Option<Replacing>, NoMemory>
    ensures { IfOk result (λ r. r ≡ outcome.replacing (outcome.library_of checked.now) main) }
{
    let structs = Indexed::new(alloc, checked.structs.as_slice())?;
    let flows = checked.flows.as_slice();
    let marks = reached(alloc, flows, main as usize)?;
    let Some(leaves) = leaves_where(alloc, &structs, flows, marks.as_slice())? else {
        return Ok(None);
    };
    let flows = expanded_where(alloc, flows, leaves.as_slice(), marks.as_slice())?;
    let records = record_leaves(alloc, leaves_at(leaves.as_slice(), main as usize))?;
    Ok(Some(Replacing { flows, records }))
}

/// The checked form with the leaves in the places of the struct inputs, where what is made is well
/// typed.
#[tactic(auto, using(crate::proofs::Outcomes::none_replaced))]
fn with_leaves(
    alloc: Global,
    checked: Checked,
    main: u32,
    source: Items<TInput>,
) -> Result<Lowered, NoMemory>
    requires { checked.main ≡ Some main }
    ensures { IfOk result (λ l. outcome.WithLeaves checked main source l) }
{
    let Some(Replacing { flows, records }) = flows_with_leaves(alloc, &checked, main)? else {
        let records = Items::new(alloc);
        return Ok(Lowered {
            checked,
            records,
            source,
        });
    };
    let tried = with_flows(alloc, checked, flows)?;
    lowered_by(alloc, tried, records, source)
}

fn lowered_by(
    alloc: Global,
    tried: Tried,
    records: Items<RecordLeaf>,
    source: Items<TInput>,
) -> Result<Lowered, NoMemory>
    ensures { IfOk result (λ l. outcome.IsLoweredBy tried.checked tried.is_new records source l) }
{
    let Tried { checked, is_new } = tried;
    if is_new {
        return Ok(Lowered {
            checked,
            records,
            source,
        });
    }
    let records = Items::new(alloc);
    Ok(Lowered {
        checked,
        records,
        source,
    })
}

/// The checked form without aliases and struct inputs.
///
/// # Errors
///
/// `NoMemory` alone.
pub fn lower(alloc: Global, checked: Checked) -> Result<Lowered, NoMemory>
    requires main { IsSome checked.main }
    ensures { IfOk result (λ l. outcome.IsLowered checked l) }
{
    let Some(main) = checked.main else {
        unreachable!()
    };
    let source = copy_inputs(alloc, inputs_at(checked.flows.as_slice(), main as usize))?;
    let flows = flows_without_aliases(alloc, &checked, main)?;
    let tried = with_flows(alloc, checked, flows)?;
    with_leaves(alloc, tried.checked, main, source)
}
