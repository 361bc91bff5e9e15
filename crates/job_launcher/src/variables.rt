use crate::directory::{INPUTS, path_in};
use crate::trouble::Trouble;
use std::alloc::Global;
use std::process::Command;
use wdl_value::{Attribute, Place, Request, Segment, Text, place_text};

/// What a job of another run, in which this one may run, was told of itself alone.
const OTHERS: [&str; 8] = [
    "WDL_INPUTS",
    "WDL_RUNTIME_container",
    "WDL_RUNTIME_docker",
    "WDL_RUNTIME_cpu",
    "WDL_RUNTIME_memory",
    "WDL_RUNTIME_gpu",
    "WDL_RUNTIME_disks",
    "WDL_RUNTIME_maxRetries",
];

/// The name of the call at a place: that of its last part that is one.
fn call_of(place: &Place) -> &str {
    let mut name = "";
    for segment in place.as_slice() {
        if let Segment::Call(call) = segment {
            name = call.as_str();
        }
    }
    name
}

fn remove_others(child: &mut Command) -> Result<(), Trouble> {
    for name in OTHERS {
        child.env_remove(name)?;
    }
    Ok(())
}

/// Tells a job the runtime attributes of its task, each in a variable of its name.
fn add_attributes(
    alloc: Global,
    child: &mut Command,
    attributes: &[Attribute],
) -> Result<(), Trouble> {
    for attribute in attributes {
        let name = attribute.name.as_str();
        let variable = format!(in alloc; "WDL_RUNTIME_{name}")?;
        child.env(variable.as_str(), attribute.value.as_str())?;
    }
    Ok(())
}

/// Tells a job which file of its directory has the paths of its inputs, where there are any.
fn add_inputs(
    alloc: Global,
    child: &mut Command,
    dir: &str,
    inputs: &[Text],
) -> Result<(), Trouble> {
    if inputs.is_empty() {
        return Ok(());
    }
    let path = path_in(alloc, dir, INPUTS)?;
    child.env("WDL_INPUTS", path.as_str())?;
    Ok(())
}

/// Tells a job its place, the number of its attempt, the root of its run and the name of its call,
/// in its environment.
fn add_place(
    alloc: Global,
    child: &mut Command,
    request: &Request,
    root: &str,
) -> Result<(), Trouble> {
    let place = place_text(alloc, &request.place)?;
    let attempt = request.attempt;
    let attempt = format!(in alloc; "{attempt}")?;
    child.env("WDL_PLACE", place.as_str())?;
    child.env("WDL_ATTEMPT", attempt.as_str())?;
    child.env("WDL_ROOT", root)?;
    child.env("WDL_TASK", call_of(&request.place))?;
    Ok(())
}

/// Tells a job in its environment what it is of its run, what its task asks for, and where its
/// inputs are. What a job of another run was told of these is removed.
pub(crate) fn add_variables(
    alloc: Global,
    child: &mut Command,
    request: &Request,
    root: &str,
) -> Result<(), Trouble> {
    remove_others(child)?;
    add_place(alloc, child, request, root)?;
    add_attributes(alloc, child, request.attributes.as_slice())?;
    add_inputs(
        alloc,
        child,
        request.dir.as_str(),
        request.inputs.as_slice(),
    )
}
