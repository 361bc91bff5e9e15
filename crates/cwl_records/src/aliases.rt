//! Declarations that only give another name to an input, an item, a member of one of these, or a
//! file.

ghost use Rattle.std.specs.Prelude.{◌≡◌, ◌++◌, ◌∷◌, [], IfOk, OnOk};
ghost use Rattle.std.specs.Option.{option_copied};
ghost use Rattle.cwl_records.specs.Aliases as spec;
ghost use Rattle.wdl_swaps.specs.Chains as chain;
ghost use Rattle.cwl_records.specs.Scenes as scene;

use crate::hops::hops_fit;
use cwl_rules::is_file_type;
use cwl_subset::{Context, call_given};
use given_types::declared;
use std::alloc::Global;
use wdl_names::{NameStack, TypedNames};
use wdl_swaps::{Chain, Swap, boxed_expr, chain_of, kept_call, kept_decl, swapped_fields};
use wdl_typed::{Bound, Statement, TCall, TDecl, TExpr};
use wdl_value::{Items, Key, Name, NoMemory, Ty};

/// The library and the names that the workflow's body declares, with the names that are used
/// outside the bodies that declare them.
#[derive(Drop)]
pub struct Stage<'a> {
    pub context: &'a Context<'a>,
    pub strays: &'a NameStack,
}

/// The names that statements give out, with their types, and what stands in the places of the
/// statements.
#[derive(Debug, Drop)]
pub struct Walked {
    pub given: Items<Bound>,
    pub kept: Items<Statement>,
}

impl Walked {
    /// Nothing.
    pub fn empty(alloc: Global) -> Walked
        ensures { result ≡ scene.nothing }
    {
        Walked {
            given: Items::new(alloc),
            kept: Items::new(alloc),
        }
    }

    /// Adds those of the statements behind.
    pub fn append(&mut self, next: Walked) -> Result<(), NoMemory>
        ensures { OnOk result (self.new ≡ scene.joined self.old next) }
    {
        let Walked { given, kept } = next;
        self.given.append(given)?;
        self.kept.append(kept)?;
        Ok(())
    }
}

/// The type of an input or an item, or of an output of a call that is seen as a File.
fn root_type<'a>(key: &Key, declared: &NameStack, names: &'a TypedNames) -> Option<&'a Ty>
    ensures { option_copied result ≡ spec.root_type declared.now names.now key.now }
{
    match &key.second {
        Some(_) => {
            let ty = names.type_of(key)?;
            if is_file_type(ty) { Some(ty) } else { None }
        }
        None => {
            if declared.has(&key.first) {
                None
            } else {
                names.type_of(key)
            }
        }
    }
}

fn is_source(chain: &Chain, context: &Context, names: &TypedNames) -> bool
    ensures { result ≡ spec.is_source context.now.structs.now context.now.declared.now names.now chain.now }
{
    match root_type(&chain.key, context.declared, names) {
        Some(ty) => hops_fit(context.structs, chain.hops.as_slice(), ty),
        None => false,
    }
}

fn source_of(chain: Option<Chain>, context: &Context, names: &TypedNames) -> Option<Chain>
    ensures { result ≡ spec.source_of context.now.structs.now context.now.declared.now names.now chain }
{
    match chain {
        Some(chain) => {
            if is_source(&chain, context, names) {
                Some(chain)
            } else {
                None
            }
        }
        None => None,
    }
}

/// The value of a declaration that is an alias.
fn alias_of(
    alloc: Global,
    name: &Name,
    value: &TExpr,
    stage: &Stage,
    names: &TypedNames,
) -> Result<Option<Chain>, NoMemory>
    ensures { IfOk result (λ c. c ≡ spec.alias_of (scene.scene_of stage.now) names.now name.now value.now) }
{
    if stage.strays.has(name) {
        return Ok(None);
    }
    let chain = chain_of(alloc, value)?;
    Ok(source_of(chain, stage.context, names))
}

/// Puts the value of an alias into the place of its name.
fn push_alias(
    alloc: Global,
    name: &Name,
    value: Chain,
    swaps: &mut Items<Swap>,
) -> Result<(), NoMemory>
    ensures { OnOk result (swaps.new ≡ swaps.old ++ spec.alias_swap name.now value ∷ []) }
{
    let key = Key::plain(alloc, name)?;
    let path = Items::new(alloc);
    swaps.push(Swap { key, path, value })?;
    Ok(())
}

/// What a declaration gives out, and what stands in its place.
pub fn decl_walk(
    alloc: Global,
    d: &TDecl,
    stage: &Stage,
    names: &TypedNames,
    swaps: &mut Items<Swap>,
) -> Result<Walked, NoMemory>
    ensures walked { IfOk result (λ w. w ≡ scene.walked (spec.decl_walk (scene.scene_of stage.now) d.now names.now swaps.old)) }
    ensures swaps { OnOk result (swaps.new ≡ swaps.old ++ (spec.decl_walk (scene.scene_of stage.now) d.now names.now swaps.old).added) }
{
    let given = declared(alloc, d)?;
    let value = boxed_expr(alloc, &d.value, swaps.as_slice())?;
    match alias_of(alloc, &d.name, value.get(), stage, names)? {
        Some(chain) => {
            push_alias(alloc, &d.name, chain, swaps)?;
            let kept = Items::new(alloc);
            Ok(Walked { given, kept })
        }
        None => {
            let kept = kept_decl(alloc, d, value)?;
            Ok(Walked { given, kept })
        }
    }
}

/// What a call gives out, and what stands in its place.
pub fn call_walk(
    alloc: Global,
    call: &TCall,
    stage: &Stage,
    swaps: &[Swap],
) -> Result<Walked, NoMemory>
    ensures { IfOk result (λ w. w ≡ scene.walked (spec.call_walk (scene.scene_of stage.now) call.now [] swaps.now)) }
{
    let given = call_given(alloc, call, stage.context)?;
    let args = swapped_fields(alloc, call.args.as_slice(), swaps)?;
    let kept = kept_call(alloc, call, args)?;
    Ok(Walked { given, kept })
}
