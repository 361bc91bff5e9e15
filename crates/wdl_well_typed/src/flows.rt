//! Workflows (OpenWDL 1.1, "Workflow Definition").

ghost use Rattle.std.specs.Prelude.{◌≡◌, ◌&&◌, IfOk};
ghost use Rattle.wdl_typed.specs.Bodies as bodies;
ghost use Rattle.wdl_typed.specs.Kept as spec;
ghost use Rattle.wdl_typed.specs.Lists as lists;
ghost use Rattle.wdl_well_typed.specs.Calls.{library_of};
ghost use Rattle.wdl_well_typed.specs.Flows.{lists_typed};

use crate::bodies::body_gives;
use crate::calls::Library;
use crate::declared::{add_declared, items_differ};
use crate::given::BodyScope;
use crate::numbered::is_numbered;
use std::alloc::Global;
use wdl_depths::{Levels, MOST_BLOCKS, body_nests};
use wdl_names::{NameStack, TypedNames, add_all};
use wdl_typed::FlowDef;
use wdl_typing::{Standing, decls_are_typed, inputs_are_typed};
use wdl_value::NoMemory;

/// Whether the names of a workflow's inputs, declarations, calls and outputs differ, and the items
/// of scatters from them and from the items round them.
fn names_differ(alloc: Global, flow: &FlowDef) -> Result<bool, NoMemory>
    ensures { IfOk result (λ b. b ≡ (lists.are_distinct (spec.flow_names flow.now) && bodies.items_differ flow.now.body (spec.flow_names flow.now))) }
{
    let mut words = NameStack::empty(alloc);
    let inputs = flow.inputs.as_slice();
    if !add_all(alloc, &mut words, inputs)? {
        return Ok(false);
    }
    let body = flow.body.as_slice();
    if !add_declared(alloc, body, &mut words)? {
        return Ok(false);
    }
    let outputs = flow.outputs.as_slice();
    if !add_all(alloc, &mut words, outputs)? {
        return Ok(false);
    }
    items_differ(alloc, body, &mut words)
}

/// Whether the lists of a workflow are well typed, whatever their names, numbers and depth.
fn lists_are_typed(alloc: Global, flow: &FlowDef, library: &Library) -> Result<bool, NoMemory>
    ensures { IfOk result (λ b. b ≡ lists_typed (library_of library.now) flow.now) }
{
    let structs = &library.structs;
    let mut scope = BodyScope {
        names: TypedNames::empty(alloc),
        calls: NameStack::empty(alloc),
    };
    if !inputs_are_typed(alloc, flow.inputs.as_slice(), structs, &mut scope.names)? {
        return Ok(false);
    }
    let Some(given) = body_gives(alloc, flow.body.as_slice(), library, &mut scope)? else {
        return Ok(false);
    };
    scope.enter(alloc, &given)?;
    decls_are_typed(
        alloc,
        Standing::Body,
        flow.outputs.as_slice(),
        structs,
        &mut scope.names,
    )
}

/// Whether a workflow is well typed.
pub fn flow_is_typed(
    alloc: Global,
    flow: &FlowDef,
    library: &Library,
    levels: &Levels,
) -> Result<bool, NoMemory>
    requires { levels.now ≡ (library.now.flows.now, 24) }
    ensures { IfOk result (λ b. b ≡ spec.flow_typed (library_of library.now) flow.now) }
{
    let body = flow.body.as_slice();
    Ok(
        names_differ(alloc, flow)?
            && is_numbered(alloc, body)?
            && body_nests(body, levels, MOST_BLOCKS)
            && lists_are_typed(alloc, flow, library)?,
    )
}
