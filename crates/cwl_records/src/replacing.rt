//! The leaves of the struct inputs of all workflows, and the workflows with them.

ghost use Rattle.std.specs.Prelude.{◌≡◌, ◌++◌, ◌∷◌, [], IfOk, OnOk, map};
ghost use Rattle.leaf_image.specs.Replaced as replaced;
ghost use Rattle.cwl_records.specs.Lowered as spec;

use crate::leaf::RecordLeaf;
use crate::unaliased::push_emptied;
use leaf_image::Leaf;
use std::alloc::Global;
use struct_leaves::{copy_names, leaves_of, push_expanded};
use wdl_names::Indexed;
use wdl_typed::FlowDef;
use wdl_value::{Items, NoMemory, StructDef};

fn leaves_if(
    alloc: Global,
    marked: bool,
    structs: &Indexed<StructDef>,
    flow: &FlowDef,
) -> Result<Option<Items<Leaf>>, NoMemory>
    ensures { IfOk result (λ ls. ls ≡ replaced.leaves_if marked structs.now flow.now) }
{
    if marked {
        leaves_of(alloc, structs, flow)
    } else {
        Ok(Some(Items::new(alloc)))
    }
}

/// The leaves of the struct inputs of each marked workflow, if all have names.
pub fn leaves_where(
    alloc: Global,
    structs: &Indexed<StructDef>,
    flows: &[FlowDef],
    marks: &[bool],
) -> Result<Option<Items<Items<Leaf>>>, NoMemory>
    ensures { IfOk result (λ ls. ls ≡ replaced.leaves_where structs.now flows.now marks.now) }
{
    let mut all = Items::new(alloc);
    let mut left = marks;
    for flow in flows {
        let Some((first, rest)) = left.split_first() else {
            return Ok(Some(all));
        };
        let Some(leaves) = leaves_if(alloc, *first, structs, flow)? else {
            return Ok(None);
        };
        all.push(leaves)?;
        left = rest;
    }
    Ok(Some(all))
}

fn push_if(
    alloc: Global,
    marked: bool,
    flow: &FlowDef,
    flows: &[FlowDef],
    leaves: &[Items<Leaf>],
    own: &[Leaf],
    all: &mut Items<FlowDef>,
) -> Result<(), NoMemory>
    ensures { OnOk result (all.new ≡ all.old ++ replaced.expanded_if marked flows.now leaves.now own.now flow.now ∷ []) }
{
    if marked {
        push_expanded(alloc, flow, flows, leaves, own, all)
    } else {
        push_emptied(alloc, flow, all)
    }
}

/// The marked workflows with the leaves in the places of the struct inputs, and the others without
/// bodies and outputs.
pub fn expanded_where(
    alloc: Global,
    flows: &[FlowDef],
    leaves: &[Items<Leaf>],
    marks: &[bool],
) -> Result<Items<FlowDef>, NoMemory>
    ensures { IfOk result (λ fs. fs ≡ replaced.expanded_where flows.now leaves.now flows.now marks.now leaves.now) }
{
    let mut all = Items::new(alloc);
    let mut marks_left = marks;
    let mut leaves_left = leaves;
    for flow in flows {
        let Some((marked, more_marks)) = marks_left.split_first() else {
            return Ok(all);
        };
        let Some((own, more_leaves)) = leaves_left.split_first() else {
            return Ok(all);
        };
        push_if(
            alloc,
            *marked,
            flow,
            flows,
            leaves,
            own.as_slice(),
            &mut all,
        )?;
        marks_left = more_marks;
        leaves_left = more_leaves;
    }
    Ok(all)
}

fn record_leaf(alloc: Global, leaf: &Leaf) -> Result<RecordLeaf, NoMemory>
    ensures { IfOk result (λ l. l ≡ spec.record_leaf leaf.now) }
{
    let input = leaf.input.copy(alloc)?;
    let path = copy_names(alloc, leaf.path.as_slice())?;
    let leaf = leaf.name.copy(alloc)?;
    Ok(RecordLeaf { input, path, leaf })
}

/// The leaves, without their types.
pub fn record_leaves(alloc: Global, leaves: &[Leaf]) -> Result<Items<RecordLeaf>, NoMemory>
    ensures { IfOk result (λ ls. ls ≡ map spec.record_leaf leaves.now) }
{
    let mut all = Items::new(alloc);
    for leaf in leaves {
        all.push(record_leaf(alloc, leaf)?)?;
    }
    Ok(all)
}
