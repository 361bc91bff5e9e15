//! What references are linked to, and the inputs of steps (CWL v1.2, WorkflowStepInput).

ghost use Rattle.std.specs.Prelude.{◌≡◌, ◌++◌, IfOk, OnOk, map};
ghost use Rattle.std.specs.Option.{option_copied};
ghost use Rattle.cwl_image.specs.Image as image;

use crate::ids::id_of;
use cwl_image::Linkage;
use cwl_model::{CwlTy, Link, Wire};
use cwl_tool::{cwl_type, reference};
use std::alloc::Global;
use wdl_names::Index;
use wdl_typed::{TExpr, TField};
use wdl_value::{Items, Key, NoMemory, Text};

fn linkage_at<'a>(scope: &'a Index<Linkage>, key: &Key) -> Option<&'a Linkage>
    ensures { option_copied result ≡ image.linkage_at scope.now key.now }
{
    scope.find(key)
}

fn link_at(alloc: Global, scope: &Index<Linkage>, key: &Key) -> Result<Link, NoMemory>
    ensures { IfOk result (λ l. l ≡ image.link_or (image.linkage_at scope.now key.now)) }
{
    match linkage_at(scope, key) {
        Some(linkage) => linkage.link.copy(alloc),
        None => Ok(Link::Input(Text::empty(alloc))),
    }
}

/// The type under which a reference is seen.
pub fn type_at(alloc: Global, scope: &Index<Linkage>, key: &Key) -> Result<CwlTy, NoMemory>
    ensures { IfOk result (λ t. t ≡ image.type_or (image.linkage_at scope.now key.now)) }
{
    match linkage_at(scope, key) {
        Some(linkage) => linkage.ty.copy(alloc),
        None => Ok(CwlTy::Str),
    }
}

/// What an expression that is a reference is linked to.
pub fn link_of(alloc: Global, scope: &Index<Linkage>, expr: &TExpr) -> Result<Link, NoMemory>
    ensures { IfOk result (λ l. l ≡ image.link_of scope.now (image.reference expr.now)) }
{
    match reference(expr) {
        Some(key) => link_at(alloc, scope, key),
        None => Ok(Link::Input(Text::empty(alloc))),
    }
}

/// The type under which a body sees a reference, with the casts round it.
pub fn seen_type(alloc: Global, scope: &Index<Linkage>, expr: &TExpr) -> Result<CwlTy, NoMemory>
    ensures { IfOk result (λ t. t ≡ image.seen_type scope.now expr.now) }
{
    match expr {
        TExpr::Get(key) => type_at(alloc, scope, key),
        TExpr::Cast(_, ty) => cwl_type(alloc, ty),
        _ => Ok(CwlTy::Str),
    }
}

fn wire_of(alloc: Global, scope: &Index<Linkage>, id: Text, key: &Key) -> Result<Wire, NoMemory>
    ensures { IfOk result (λ w. w ≡ image.wire id (image.link_or (image.linkage_at scope.now key.now))) }
{
    let source = link_at(alloc, scope, key)?;
    Ok(Wire { id, source })
}

/// Adds an input that takes the value of a reference.
pub fn add_wire(
    alloc: Global,
    scope: &Index<Linkage>,
    id: Text,
    expr: &TExpr,
    wires: &mut Items<Wire>,
) -> Result<(), NoMemory>
    ensures { OnOk result (wires.new ≡ wires.old ++ image.wire_to scope.now id (image.reference expr.now)) }
{
    if let Some(key) = reference(expr) {
        wires.push(wire_of(alloc, scope, id, key)?)?;
    }
    Ok(())
}

/// The inputs of the step of a call: its arguments.
pub fn args_wired(
    alloc: Global,
    scope: &Index<Linkage>,
    args: &[TField<TExpr>],
) -> Result<Items<Wire>, NoMemory>
    ensures { IfOk result (λ ws. ws ≡ image.args_wired args.now scope.now) }
{
    let mut wires = Items::new(alloc);
    for arg in args {
        add_wire(
            alloc,
            scope,
            arg.name.to_text(alloc)?,
            &arg.value,
            &mut wires,
        )?;
    }
    Ok(wires)
}

/// Adds an input for each reference that a block takes from outside.
pub fn add_outer_wires(
    alloc: Global,
    scope: &Index<Linkage>,
    keys: &[Key],
    wires: &mut Items<Wire>,
) -> Result<(), NoMemory>
    ensures { OnOk result (wires.new ≡ wires.old ++ map (image.outer_wire scope.now) keys.now) }
{
    for key in keys {
        wires.push(wire_of(alloc, scope, id_of(alloc, key)?, key)?)?;
    }
    Ok(())
}
