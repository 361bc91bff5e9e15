//! Whether the names that statements declare differ.

ghost use Rattle.std.specs.Prelude.{◌≡◌, ◌&&◌, ◌++◌, ◌∷◌, not, true, IfOk};
ghost use Rattle.wdl_names.specs.Fresh.{fresh};
ghost use Rattle.wdl_typed.specs.Bodies as bodies;
ghost use Rattle.wdl_typed.specs.Lists.{has_name};
ghost use Rattle.wdl_well_typed.specs.Items as spec;

use std::alloc::Global;
use wdl_names::{NameStack, add};
use wdl_typed::Statement;
use wdl_value::{Name, NoMemory};

/// Adds the names of declarations and calls, those of the bodies in blocks too.
#[cycle(declared)]
pub fn add_declared(
    alloc: Global,
    body: &[Statement],
    words: &mut NameStack,
) -> Result<bool, NoMemory>
    ensures fresh { IfOk result (λ b. b ≡ fresh words.old (bodies.all_declared body.now)) }
    ensures words { IfOk result (λ b. b ≡ true → words.new ≡ words.old ++ bodies.all_declared body.now) }
{
    for statement in body {
        if !add_statement(alloc, statement, words)? {
            return Ok(false);
        }
    }
    Ok(true)
}

#[cycle(declared)]
fn add_statement(
    alloc: Global,
    statement: &Statement,
    words: &mut NameStack,
) -> Result<bool, NoMemory>
    ensures fresh { IfOk result (λ b. b ≡ fresh words.old (bodies.declared statement.now)) }
    ensures words { IfOk result (λ b. b ≡ true → words.new ≡ words.old ++ bodies.declared statement.now) }
{
    match statement {
        Statement::Decl(d) => add(alloc, words, &d.name),
        Statement::Call(c) => add(alloc, words, &c.name),
        Statement::Scatter(s) => add_declared(alloc, s.body.as_slice(), words),
        Statement::If(i) => add_declared(alloc, i.body.as_slice(), words),
    }
}

/// Whether the items of scatters differ from these names and from the items round them.
#[cycle(items)]
pub fn items_differ(
    alloc: Global,
    body: &[Statement],
    taken: &mut NameStack,
) -> Result<bool, NoMemory>
    ensures differ { IfOk result (λ b. b ≡ bodies.items_differ body.now taken.old) }
    ensures taken { IfOk result (λ b. b ≡ true → taken.new ≡ taken.old) }
{
    for statement in body {
        if !item_differs(alloc, statement, taken)? {
            return Ok(false);
        }
    }
    Ok(true)
}

#[cycle(items)]
fn item_differs(
    alloc: Global,
    statement: &Statement,
    taken: &mut NameStack,
) -> Result<bool, NoMemory>
    ensures differ { IfOk result (λ b. b ≡ spec.item_differs statement.now taken.old) }
    ensures taken { IfOk result (λ b. b ≡ true → taken.new ≡ taken.old) }
{
    match statement {
        Statement::Scatter(s) => scatter_differs(alloc, s.body.as_slice(), &s.item, taken),
        Statement::If(i) => items_differ(alloc, i.body.as_slice(), taken),
        _ => Ok(true),
    }
}

#[tactic(auto, using(crate::proofs::ItemsLemmas::items_differ_push))]
#[cycle(items)]
fn scatter_differs(
    alloc: Global,
    body: &[Statement],
    item: &Name,
    taken: &mut NameStack,
) -> Result<bool, NoMemory>
    ensures differ { IfOk result (λ b. b ≡ (not (has_name item.now taken.old) && bodies.items_differ body.now (item.now ∷ taken.old))) }
    ensures taken { IfOk result (λ b. b ≡ true → taken.new ≡ taken.old) }
{
    let count = taken.len();
    if !add(alloc, taken, item)? {
        return Ok(false);
    }
    let differ = items_differ(alloc, body, taken)?;
    taken.keep(count);
    Ok(differ)
}
