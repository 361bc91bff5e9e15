//! The names of a workflow: those that its statements declare, and the items of its scatters.

ghost use Rattle.std.specs.Prelude.{◌≡◌, ◌++◌, map, IfOk, None, OnOk};
ghost use Rattle.wdl_check_flow.specs.Sections as spec;

use crate::sections::Sections;
use std::alloc::Global;
use wdl_ast::{Ident, Statement};
use wdl_check_decls::first_repeated;
use wdl_check_types::call_ident;
use wdl_names::NameStack;
use wdl_value::{NoMemory, Span};

/// Puts the names of the declarations and calls of a statement, and of the bodies in it, behind the
/// others.
#[cycle(declared)]
fn push_declared<'a>(statement: &'a Statement, idents: &mut Vec<&'a Ident>) -> Result<(), NoMemory>
    ensures { OnOk result (map (λ n. n.now) idents.new.items ≡ map (λ n. n.now) idents.old.items ++ spec.declared statement.now) }
{
    match statement {
        Statement::Declaration(declaration) => idents.push(&declaration.name)?,
        Statement::Call(call) => idents.push(call_ident(call))?,
        Statement::Scatter(block) => push_all_declared(block.body.as_slice(), idents)?,
        Statement::Conditional(block) => push_all_declared(block.body.as_slice(), idents)?,
    }
    Ok(())
}

#[cycle(declared)]
fn push_all_declared<'a>(body: &'a [Statement], idents: &mut Vec<&'a Ident>) -> Result<(), NoMemory>
    ensures { OnOk result (map (λ n. n.now) idents.new.items ≡ map (λ n. n.now) idents.old.items ++ spec.all_declared body.now) }
{
    for statement in body {
        push_declared(statement, idents)?;
    }
    Ok(())
}

/// The names of inputs, of all declarations and calls, and of outputs.
fn idents_of<'a>(alloc: Global, sections: &Sections<'a>) -> Result<Vec<&'a Ident>, NoMemory>
    ensures { IfOk result (λ ns. map (λ n. n.now) ns.items ≡ spec.idents_in (map (λ i. i.now) sections.now.inputs.items) (map (λ s. s.now) sections.now.statements.items) (map (λ d. d.now) sections.now.outputs.items)) }
{
    let mut idents = Vec::new(alloc);
    for input in &sections.inputs {
        idents.push(&input.name)?;
    }
    for statement in &sections.statements {
        push_declared(statement, &mut idents)?;
    }
    for output in &sections.outputs {
        idents.push(&output.name)?;
    }
    Ok(idents)
}

/// Where the item of a scatter stands whose name is one of these, or that of an item round it.
#[cycle(items)]
fn taken_item(
    alloc: Global,
    statement: &Statement,
    words: &mut NameStack,
) -> Result<Option<Span>, NoMemory>
    ensures taken { IfOk result (λ s. s ≡ spec.taken statement.now words.old) }
    ensures words { IfOk result (λ s. s ≡ None → words.new ≡ words.old) }
{
    match statement {
        Statement::Scatter(block) => { taken_in(alloc, &block.item, block.body.as_slice(), words) }
        Statement::Conditional(block) => first_taken(alloc, block.body.as_slice(), words),
        _ => Ok(None),
    }
}

/// The same of a scatter, with its item and its body.
#[cycle(items)]
fn taken_in(
    alloc: Global,
    item: &Ident,
    body: &[Statement],
    words: &mut NameStack,
) -> Result<Option<Span>, NoMemory>
    ensures taken { IfOk result (λ s. s ≡ spec.taken_in item.now (map spec.taken body.now) words.old) }
    ensures words { IfOk result (λ s. s ≡ None → words.new ≡ words.old) }
{
    if words.has(&item.name) {
        return Ok(Some(item.span));
    }
    let count = words.len();
    words.enter(item.name.copy(alloc)?)?;
    let taken = first_taken(alloc, body, words)?;
    words.keep(count);
    Ok(taken)
}

#[cycle(items)]
fn first_taken(
    alloc: Global,
    body: &[Statement],
    words: &mut NameStack,
) -> Result<Option<Span>, NoMemory>
    ensures taken { IfOk result (λ s. s ≡ spec.first_taken (map spec.taken body.now) words.old) }
    ensures words { IfOk result (λ s. s ≡ None → words.new ≡ words.old) }
{
    for statement in body {
        if let Some(span) = taken_item(alloc, statement, words)? {
            return Ok(Some(span));
        }
    }
    Ok(None)
}

/// The same of the statements of a workflow, whose other names these are.
fn taken_among(
    alloc: Global,
    statements: &[&Statement],
    idents: &[&Ident],
) -> Result<Option<Span>, NoMemory>
    ensures { IfOk result (λ s. s ≡ spec.first_taken (map spec.taken (map (λ s. s.now) statements.now)) (spec.words_of (map (λ n. n.now) idents.now))) }
{
    let mut words = NameStack::empty(alloc);
    for ident in idents {
        words.enter(ident.name.copy(alloc)?)?;
    }
    for statement in statements {
        if let Some(span) = taken_item(alloc, statement, &mut words)? {
            return Ok(Some(span));
        }
    }
    Ok(None)
}

/// Where a name of the workflow stands that stands before, where one can see the other.
pub fn repeated(alloc: Global, sections: &Sections) -> Result<Option<Span>, NoMemory>
    ensures { IfOk result (λ s. s ≡ spec.repeated (map (λ i. i.now) sections.now.inputs.items) (map (λ s. s.now) sections.now.statements.items) (map (λ d. d.now) sections.now.outputs.items)) }
{
    let idents = idents_of(alloc, sections)?;
    if let Some(span) = first_repeated(alloc, idents.as_slice())? {
        return Ok(Some(span));
    }
    taken_among(alloc, sections.statements.as_slice(), idents.as_slice())
}
