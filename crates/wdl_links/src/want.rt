//! The documents that a document imports.

ghost use Rattle.std.specs.Prelude.{◌≡◌, [], false};
ghost use Rattle.wdl_base.specs.Plain.{has_nul};
ghost use Rattle.wdl_links.specs.Wants as spec;
ghost use Rattle.wdl_library.specs.Imports as imports;
ghost use Rattle.wdl_library.specs.Sections.{imports_in};

use crate::fault::LinkFault;
use sqlite_items::Items;
use std::alloc::Global;
use wdl_ast::{Import, PlainString, Section};
use wdl_names::NameStack;
use wdl_paths::{ResolveFault, file_name, resolve};
use wdl_value::{Name, NameFault, NoMemory, Span, Text};

/// An import that is resolved: the path of the document that it names, its namespace, and where its
/// uri stands.
#[derive(Drop)]
pub struct Want {
    pub path: Text,
    pub namespace: Name,
    pub span: Span,
}

/// The characters of a string.
fn text_of(string: &PlainString) -> &str
    ensures value { result.now ≡ imports.text_of string.now.chars }
    ensures plain { has_nul result.now ≡ false }
{
    match &string.chars {
        Some(chars) => chars.text.as_str(),
        None => "",
    }
}

/// A file's name without `.wdl`.
fn stem(name: &str) -> &str
    ensures value { result.now ≡ imports.stem name.now }
{
    match name.strip_suffix(".wdl") {
        Some(stem) => stem,
        None => name,
    }
}

/// The name under which an import is used, which may be no identifier.
fn namespace_of(import: &Import) -> &str
    ensures value { result.now ≡ imports.namespace_of import.now }
{
    match &import.namespace {
        Some(renaming) => renaming.name.name.as_str(),
        None => stem(file_name(text_of(&import.uri))),
    }
}

/// From the word `import` to the end of the uri.
pub fn span_of(import: &Import) -> Span
    ensures { result ≡ spec.span_of import.now }
{
    Span {
        doc: import.keyword.doc,
        start: import.keyword.start,
        end: import.uri.closing.end,
    }
}

fn path_of(alloc: Global, base: &Text, import: &Import) -> Result<Text, LinkFault>
    ensures { spec.Gives (spec.path_of base.now import.now) result }
{
    match resolve(alloc, base.as_str(), text_of(&import.uri)) {
        Ok(path) => Ok(path),
        Err(ResolveFault::Scheme) => Err(LinkFault::Bad {
            code: 201,
            span: span_of(import),
        }),
        Err(ResolveFault::NoMemory) => Err(LinkFault::NoMemory),
    }
}

fn name_of(alloc: Global, import: &Import) -> Result<Name, LinkFault>
    ensures { spec.Gives (spec.name_of import.now) result }
{
    match Name::new(alloc, namespace_of(import)) {
        Ok(name) => Ok(name),
        Err(NameFault::NotAName) => Err(LinkFault::Bad {
            code: 207,
            span: span_of(import),
        }),
        Err(NameFault::NoMemory) => Err(LinkFault::NoMemory),
    }
}

/// Adds the namespace of an import to those before it.
fn take_name(
    alloc: Global,
    taken: &mut NameStack,
    name: &Name,
    import: &Import,
) -> Result<(), LinkFault>
    ensures { spec.Takes (spec.taken_with taken.old name.now import.now) taken.new result }
{
    if taken.has(name) {
        return Err(LinkFault::Bad {
            code: 203,
            span: span_of(import),
        });
    }
    taken.enter(name.copy(alloc)?)?;
    Ok(())
}

fn want_of(
    alloc: Global,
    base: &Text,
    taken: &mut NameStack,
    import: &Import,
) -> Result<Want, LinkFault>
    ensures { spec.Wanted (spec.want_of base.now taken.old import.now) taken.old taken.new result }
{
    let path = path_of(alloc, base, import)?;
    let namespace = name_of(alloc, import)?;
    take_name(alloc, taken, &namespace, import)?;
    Ok(Want {
        path,
        namespace,
        span: span_of(import),
    })
}

/// The imports of a document at that path, in their order. 201 is answered at an import whose uri
/// holds `://`, 207 where it has no `as` and the file's name without `.wdl` is no name, and 203
/// where an earlier one has its namespace.
pub fn wants_of(alloc: Global, base: &Text, sections: &[Section]) -> Result<Items<Want>, LinkFault>
    ensures { spec.Gives (spec.wants_of base.now [] (imports_in sections.now)) result }
{
    let mut taken = NameStack::empty(alloc);
    let mut wants = Items::new(alloc);
    for section in sections {
        let import = match section {
            Section::Import(import) => import,
            Section::Struct(_) | Section::Task(_) | Section::Workflow(_) => continue,
        };
        wants.push(want_of(alloc, base, &mut taken, import)?)?;
    }
    Ok(wants)
}
