//! The bodies of workflows without aliases.

ghost use Rattle.std.specs.Prelude.{◌≡◌, ◌++◌, IfOk, OnOk, take};
ghost use Rattle.cwl_records.specs.Aliases as spec;
ghost use Rattle.cwl_records.specs.Scenes as scene;

use crate::aliases::{Stage, Walked, call_walk, decl_walk};
use cwl_subset::items_of;
use given_types::{arrays, enter_names, optionals};
use std::alloc::Global;
use wdl_names::TypedNames;
use wdl_swaps::{Swap, boxed_expr, kept_if, kept_scatter};
use wdl_typed::{Statement, TExpr, TIf, TScatter};
use wdl_typing::enter;
use wdl_value::{Items, Name, NoMemory};

/// Takes the last swaps away until there are at most that many.
fn keep(swaps: &mut Items<Swap>, count: usize)
    ensures { swaps.new ≡ take count swaps.old }
{
    while swaps.len() > count {
        swaps.pop();
    }
}

/// What a scatter gives out and what stands in its place, given those of its body.
fn scattered(
    alloc: Global,
    s: &TScatter<Statement>,
    inside: Walked,
    some: bool,
    swaps: &[Swap],
) -> Result<Walked, NoMemory>
    ensures { IfOk result (λ w. w ≡ scene.scattered swaps.now s.now inside some) }
{
    let Walked { given, kept } = inside;
    let given = arrays(alloc, given.as_slice(), some)?;
    let over = boxed_expr(alloc, &s.over, swaps)?;
    let kept = kept_scatter(alloc, s, over, kept)?;
    Ok(Walked { given, kept })
}

/// The same of a condition.
fn conditional(
    alloc: Global,
    i: &TIf<Statement>,
    inside: Walked,
    swaps: &[Swap],
) -> Result<Walked, NoMemory>
    ensures { IfOk result (λ w. w ≡ scene.conditional swaps.now i.now inside) }
{
    let Walked { given, kept } = inside;
    let given = optionals(alloc, given.as_slice())?;
    let cond = boxed_expr(alloc, &i.cond, swaps)?;
    let kept = kept_if(alloc, i, cond, kept)?;
    Ok(Walked { given, kept })
}

/// A scatter over what is no array, which no checked form has.
fn not_scattered(alloc: Global, s: &TScatter<Statement>, swaps: &[Swap]) -> Result<Walked, NoMemory>
    ensures { IfOk result (λ w. w ≡ scene.not_scattered swaps.now s.now) }
{
    let over = boxed_expr(alloc, &s.over, swaps)?;
    let kept = kept_scatter(alloc, s, over, Items::new(alloc))?;
    let given = Items::new(alloc);
    Ok(Walked { given, kept })
}

/// What a scatter gives out and what stands in its place, given those of its body and whether the
/// collection has `+`.
fn scatter_left(
    alloc: Global,
    s: &TScatter<Statement>,
    inside: Option<(Walked, bool)>,
    swaps: &[Swap],
) -> Result<Walked, NoMemory>
    ensures { IfOk result (λ w. w ≡ scene.scatter_left swaps.now s.now inside) }
{
    match inside {
        Some((walked, some)) => scattered(alloc, s, walked, some, swaps),
        None => not_scattered(alloc, s, swaps),
    }
}

/// What a statement gives out, and what stands in its place, where these names are seen.
#[cycle(walk)]
#[tactic(auto, using(crate::proofs::WalkLaws::scatter_is, crate::proofs::WalkLaws::scatter_adds))]
fn statement_walk<'a>(
    alloc: Global,
    statement: &Statement,
    stage: &Stage<'a>,
    names: &mut TypedNames,
    swaps: &mut Items<Swap>,
) -> Result<Walked, NoMemory>
    ensures walked { IfOk result (λ w. w ≡ scene.walked (spec.walk (scene.scene_of stage.now) statement.now names.old swaps.old)) }
    ensures names { OnOk result (names.new ≡ names.old) }
    ensures swaps { OnOk result (swaps.new ≡ swaps.old ++ (spec.walk (scene.scene_of stage.now) statement.now names.old swaps.old).added) }
{
    match statement {
        Statement::Decl(d) => decl_walk(alloc, d, stage, names, swaps),
        Statement::Call(c) => call_walk(alloc, c, stage, swaps.as_slice()),
        Statement::Scatter(s) => {
            let body = s.body.as_slice();
            let inside = scatter_inside(alloc, body, &s.item, &s.over, stage, names, swaps)?;
            scatter_left(alloc, s, inside, swaps.as_slice())
        }
        Statement::If(i) => {
            let inside = if_inside(alloc, i.body.as_slice(), stage, names, swaps)?;
            conditional(alloc, i, inside, swaps.as_slice())
        }
    }
}

/// What the body of a scatter gives out and leaves, and whether the collection has `+`. The item is
/// seen in the body alone.
#[cycle(walk)]
#[tactic(auto, using(wdl_swaps::proofs::StrayBodies::path_kept))]
fn scatter_inside<'a>(
    alloc: Global,
    body: &[Statement],
    item: &Name,
    over: &TExpr,
    stage: &Stage<'a>,
    names: &mut TypedNames,
    swaps: &mut Items<Swap>,
) -> Result<Option<(Walked, bool)>, NoMemory>
    ensures inside { IfOk result (λ o. o ≡ scene.scatter_inside (scene.scene_of stage.now) body.now item.now over.now names.old swaps.old) }
    ensures names { OnOk result (names.new ≡ names.old) }
    ensures swaps { OnOk result (swaps.new ≡ swaps.old) }
{
    let Some((ty, some)) = items_of(alloc, over, stage.context, names)? else {
        return Ok(None);
    };
    let seen = names.len();
    let count = swaps.len();
    enter(alloc, names, item, &ty)?;
    let walked = body_walk(alloc, body, stage, names, swaps)?;
    names.keep(seen);
    keep(swaps, count);
    Ok(Some((walked, some)))
}

/// What the body of a condition gives out and leaves.
#[cycle(walk)]
#[tactic(auto, using(wdl_swaps::proofs::StrayBodies::path_kept))]
fn if_inside<'a>(
    alloc: Global,
    body: &[Statement],
    stage: &Stage<'a>,
    names: &mut TypedNames,
    swaps: &mut Items<Swap>,
) -> Result<Walked, NoMemory>
    ensures inside { IfOk result (λ w. w ≡ scene.walked (spec.walk_body (scene.scene_of stage.now) body.now names.old swaps.old)) }
    ensures names { OnOk result (names.new ≡ names.old) }
    ensures swaps { OnOk result (swaps.new ≡ swaps.old) }
{
    let count = swaps.len();
    let inside = body_walk(alloc, body, stage, names, swaps)?;
    keep(swaps, count);
    Ok(inside)
}

/// The statements of a body without its aliases, whose values then stand in the places of their
/// names.
#[cycle(walk)]
#[tactic(auto, using(crate::proofs::WalkLaws::joined_nothing, wdl_swaps::proofs::StrayBodies::path_kept))]
pub fn body_walk<'a>(
    alloc: Global,
    body: &[Statement],
    stage: &Stage<'a>,
    names: &mut TypedNames,
    swaps: &mut Items<Swap>,
) -> Result<Walked, NoMemory>
    ensures walked { IfOk result (λ w. w ≡ scene.walked (spec.walk_body (scene.scene_of stage.now) body.now names.old swaps.old)) }
    ensures names { OnOk result (names.new ≡ names.old) }
    ensures swaps { OnOk result (swaps.new ≡ swaps.old ++ (spec.walk_body (scene.scene_of stage.now) body.now names.old swaps.old).added) }
{
    let seen = names.len();
    let mut walked = Walked::empty(alloc);
    for statement in body {
        let next = statement_walk(alloc, statement, stage, names, swaps)?;
        enter_names(alloc, names, next.given.as_slice())?;
        walked.append(next)?;
    }
    names.keep(seen);
    Ok(walked)
}
