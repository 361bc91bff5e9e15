//! What the outputs of steps are linked to, and their types, where later statements of the body
//! refer to them.

ghost use Rattle.std.specs.Prelude.{◌≡◌, ◌++◌, IfOk, OnOk, Some, map};
ghost use Rattle.wdl_typed.specs.Bodies.{signature};
ghost use Rattle.cwl_model.specs.declared.process.Link.TheVariants as link;
ghost use Rattle.cwl_image.specs.Image as image;
ghost use Rattle.cwl_flow.specs.Blocks as block;
ghost use Rattle.cwl_flow.specs.Drafts as draft;

use crate::context::Context;
use crate::ids::{block_id, id_of};
use cwl_image::Linkage;
use cwl_model::{CwlTy, Link};
use cwl_tool::cwl_type;
use std::alloc::Global;
use wdl_names::Index;
use wdl_typed::{Statement, TCall, TDecl, Target};
use wdl_value::{Boxed, Key, Name, NoMemory, Text};

/// The kinds of blocks.
#[derive(Clone, Copy)]
pub enum Kind {
    Scatter,
    If,
}

/// The outputs that a target declares.
pub fn declared_by<'a>(context: &Context<'a>, target: Target) -> &'a [TDecl]
    ensures { result.now ≡ draft.declared_by (signature (draft.library_of context.now.checked.now) target) }
{
    match target {
        Target::Task(k) => match context.checked.tasks.get(k as usize) {
            Some(task) => task.outputs.as_slice(),
            None => &[],
        },
        Target::Flow(k) => match context.checked.flows.get(k as usize) {
            Some(flow) => flow.outputs.as_slice(),
            None => &[],
        },
    }
}

fn output_key(alloc: Global, call: &Name, output: &Name) -> Result<Key, NoMemory>
    ensures { IfOk result (λ k. k ≡ record { first = call.now; second = Some output.now }) }
{
    let first = call.copy(alloc)?;
    let second = output.copy(alloc)?;
    Ok(Key {
        first,
        second: Some(second),
    })
}

fn output_link(alloc: Global, call: &Name, output: &Name) -> Result<Link, NoMemory>
    ensures { IfOk result (λ l. l ≡ link.Out call.now output.now) }
{
    let step = call.to_text(alloc)?;
    let out = output.to_text(alloc)?;
    Ok(Link::Out { step, out })
}

fn call_linkage(alloc: Global, call: &Name, output: &TDecl) -> Result<Linkage, NoMemory>
    ensures { IfOk result (λ l. l ≡ image.linkage_of call.now (image.call_output call.now output.now)) }
{
    let key = output_key(alloc, call, &output.name)?;
    let link = output_link(alloc, call, &output.name)?;
    let ty = cwl_type(alloc, &output.ty)?;
    Ok(Linkage { key, link, ty })
}

fn add_outputs(
    alloc: Global,
    call: &Name,
    outputs: &[TDecl],
    links: &mut Index<Linkage>,
) -> Result<(), NoMemory>
    ensures { OnOk result (links.new ≡ links.old ++ map (image.linkage_of call.now) (map (image.call_output call.now) outputs.now)) }
{
    for output in outputs {
        links.push(call_linkage(alloc, call, output)?)?;
    }
    Ok(())
}

/// Adds the outputs of a call.
#[tactic(auto, using(crate::proofs::Signatures::declared))]
fn add_call<'a>(
    alloc: Global,
    context: &Context<'a>,
    call: &TCall,
    links: &mut Index<Linkage>,
) -> Result<(), NoMemory>
    ensures { OnOk result (links.new ≡ links.old ++ map (image.linkage_of call.now.name) (image.signature_outputs call.now.name (signature (draft.library_of context.now.checked.now) call.now.target))) }
{
    let outputs = declared_by(context, call.target);
    add_outputs(alloc, &call.name, outputs, links)
}

/// The type with `null`.
fn nullable(alloc: Global, ty: &CwlTy) -> Result<CwlTy, NoMemory>
    ensures { IfOk result (λ t. t ≡ image.null_type ty.now) }
{
    match ty {
        CwlTy::Null(_) => ty.copy(alloc),
        _ => {
            let inner = ty.copy(alloc)?;
            Ok(CwlTy::Null(Boxed::new(alloc, inner)?))
        }
    }
}

fn list_of(alloc: Global, ty: &CwlTy) -> Result<CwlTy, NoMemory>
    ensures { IfOk result (λ t. t ≡ image.list_type ty.now) }
{
    let item = ty.copy(alloc)?;
    Ok(CwlTy::List(Boxed::new(alloc, item)?))
}

/// The type outside a block of what has this type inside.
fn outer_type(alloc: Global, kind: Kind, ty: &CwlTy) -> Result<CwlTy, NoMemory>
    ensures { IfOk result (λ t. t ≡ block.outer_type kind ty.now) }
{
    match kind {
        Kind::Scatter => list_of(alloc, ty),
        Kind::If => nullable(alloc, ty),
    }
}

/// The output of a block for one of its body.
fn outer_link(alloc: Global, kind: Kind, step: &Text, inner: &Linkage) -> Result<Linkage, NoMemory>
    ensures { IfOk result (λ l. l ≡ image.linkage_of step.now (image.block_output (block.outer_type kind) inner.now)) }
{
    let key = inner.key.copy(alloc)?;
    let step = step.copy(alloc)?;
    let out = id_of(alloc, &inner.key)?;
    let ty = outer_type(alloc, kind, &inner.ty)?;
    let link = Link::Out { step, out };
    Ok(Linkage { key, link, ty })
}

/// Adds the outputs of the step of a block, by those of its body.
fn add_outer(
    alloc: Global,
    kind: Kind,
    step: &Text,
    inner: &[Linkage],
    links: &mut Index<Linkage>,
) -> Result<(), NoMemory>
    ensures { OnOk result (links.new ≡ links.old ++ map (image.linkage_of step.now) (map (image.block_output (block.outer_type kind)) inner.now)) }
{
    for link in inner {
        links.push(outer_link(alloc, kind, step, link)?)?;
    }
    Ok(())
}

/// Adds the outputs of a block of that number.
fn add_block(
    alloc: Global,
    kind: Kind,
    number: u32,
    inner: &[Linkage],
    links: &mut Index<Linkage>,
) -> Result<(), NoMemory>
    ensures { OnOk result (links.new ≡ links.old ++ map (image.linkage_of (block.block_id kind number)) (map (image.block_output (block.outer_type kind)) inner.now)) }
{
    let step = block_id(alloc, kind, number)?;
    add_outer(alloc, kind, &step, inner, links)
}

/// Adds what later statements of the body may refer to of a statement.
#[cycle(links)]
pub fn add_links<'a>(
    alloc: Global,
    statement: &Statement,
    context: &Context<'a>,
    links: &mut Index<Linkage>,
) -> Result<(), NoMemory>
    ensures { OnOk result (links.new ≡ links.old ++ image.links_of (draft.draft_of context.now statement.now)) }
{
    match statement {
        Statement::Decl(_) => Ok(()),
        Statement::Call(call) => add_call(alloc, context, call, links),
        Statement::Scatter(scatter) => {
            let inner = body_links(alloc, scatter.body.as_slice(), context)?;
            add_block(
                alloc,
                Kind::Scatter,
                scatter.number,
                inner.as_slice(),
                links,
            )
        }
        Statement::If(condition) => {
            let inner = body_links(alloc, condition.body.as_slice(), context)?;
            add_block(alloc, Kind::If, condition.number, inner.as_slice(), links)
        }
    }
}

/// What a statement behind a body could refer to, inside its block.
#[cycle(links)]
pub fn body_links<'a>(
    alloc: Global,
    body: &[Statement],
    context: &Context<'a>,
) -> Result<Index<Linkage>, NoMemory>
    ensures { IfOk result (λ ls. ls ≡ image.body_links (draft.drafts_of context.now body.now)) }
{
    let mut links = Index::empty(alloc);
    for statement in body {
        add_links(alloc, statement, context, &mut links)?;
    }
    Ok(links)
}
