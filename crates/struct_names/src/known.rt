//! The names under which documents know structs.

ghost use Rattle.std.specs.Prelude.{◌≡◌, map, IfOk};
ghost use Rattle.struct_names.specs.Known as spec;

use std::alloc::Global;
use wdl_check_rules::Local;
use wdl_library::{Doc, StructName};
use wdl_names::Indexed;
use wdl_value::NoMemory;

/// A document with the names under which it knows structs.
#[derive(Drop)]
pub struct DocNameList<'d> {
    pub doc: &'d Doc,
    pub locals: Vec<Local<'d>>,
}

/// The same, with these names by an index.
#[derive(Drop)]
pub struct DocNames<'d, 'n> {
    pub doc: &'d Doc,
    pub locals: Indexed<'n, Local<'d>>,
}

fn locals_of<'a>(alloc: Global, names: &'a [StructName]) -> Result<Vec<Local<'a>>, NoMemory>
    ensures { IfOk result (λ ls. map spec.name_of ls.items ≡ names.now) }
{
    let mut locals = Vec::new(alloc);
    for known in names {
        locals.push(Local {
            name: &known.name,
            stands_for: &known.stands_for,
        })?;
    }
    Ok(locals)
}

fn naming_of<'a>(alloc: Global, doc: &'a Doc) -> Result<DocNameList<'a>, NoMemory>
    ensures { IfOk result (λ n. spec.naming_of n ≡ spec.known doc.now) }
{
    let locals = locals_of(alloc, doc.structs.as_slice())?;
    Ok(DocNameList { doc, locals })
}

fn known_of<'d, 'n>(
    alloc: Global,
    naming: &'n DocNameList<'d>,
) -> Result<DocNames<'d, 'n>, NoMemory>
    ensures { IfOk result (λ k. spec.known_of k ≡ spec.naming_of naming.now) }
{
    let locals = Indexed::new(alloc, naming.locals.as_slice())?;
    Ok(DocNames {
        doc: naming.doc,
        locals,
    })
}

/// For each document the names under which it knows structs.
pub fn namings_of<'a>(alloc: Global, docs: &'a [Doc]) -> Result<Vec<DocNameList<'a>>, NoMemory>
    ensures { IfOk result (λ ns. map spec.naming_of ns.items ≡ map spec.known docs.now) }
{
    let mut all = Vec::new(alloc);
    for doc in docs {
        all.push(naming_of(alloc, doc)?)?;
    }
    Ok(all)
}

/// The same, by indices.
pub fn knowns_of<'d, 'n>(
    alloc: Global,
    namings: &'n [DocNameList<'d>],
) -> Result<Vec<DocNames<'d, 'n>>, NoMemory>
    ensures { IfOk result (λ ks. map spec.known_of ks.items ≡ map spec.naming_of namings.now) }
{
    let mut all = Vec::new(alloc);
    for naming in namings {
        all.push(known_of(alloc, naming)?)?;
    }
    Ok(all)
}
