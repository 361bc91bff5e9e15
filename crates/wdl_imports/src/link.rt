//! The links between the documents that were read.

ghost use Rattle.std.specs.Prelude.{◌≡◌, ◌≤◌, true, length, IfOk};
ghost use Rattle.wdl_base.specs.Names.{is_among};
ghost use Rattle.wdl_library.specs.Sections.{imports_of};
ghost use Rattle.wdl_sources.specs.Walks.{paths, most_documents};
ghost use Rattle.wdl_imports.specs.LinksTo as spec;

use sqlite_items::Items;
use std::alloc::Global;
use wdl_library::{Doc, Link};
use wdl_links::{LinkFault, Want, wants_of};
use wdl_sources::{Source, Sources};
use wdl_value::NoMemory;

/// The link to the document at the path of an import.
fn link_of(alloc: Global, sources: &Sources, want: &Want) -> Result<Link, NoMemory>
    requires few { length sources.now ≤ most_documents }
    requires read { is_among want.now.path (paths sources.now) ≡ true }
    ensures { IfOk result (spec.IsFor (paths sources.now) want.now) }
{
    let Some(number) = sources.number_of(&want.path) else {
        unreachable!()
    };
    Ok(Link {
        namespace: want.namespace.copy(alloc)?,
        doc: number as u32,
    })
}

/// One link for each import of a source, to one of the sources.
fn links_of(alloc: Global, sources: &Sources, source: &Source) -> Result<Items<Link>, NoMemory>
    requires few { length sources.now ≤ most_documents }
    requires named { spec.IsNamed (paths sources.now) source.now }
    ensures { IfOk result (λ ls. spec.links_to (paths sources.now) source.now.path (imports_of source.now.document) ls ≡ true) }
{
    let wants = match wants_of(alloc, &source.path, source.document.sections.as_slice()) {
        Ok(wants) => wants,
        Err(LinkFault::Bad { .. }) => unreachable!(),
        Err(LinkFault::NoMemory) => return Err(NoMemory),
    };
    let mut links = Items::new(alloc);
    for want in wants.as_slice() {
        links.push(link_of(alloc, sources, want)?)?;
    }
    Ok(links)
}

/// The links of all sources.
fn all_links(alloc: Global, sources: &Sources) -> Result<Items<Items<Link>>, NoMemory>
    requires few { length sources.now ≤ most_documents }
    requires named { spec.AreNamed (paths sources.now) sources.now }
    ensures { IfOk result (spec.AllLinks (paths sources.now) sources.now) }
{
    let mut links = Items::new(alloc);
    for source in sources.as_slice() {
        links.push(links_of(alloc, sources, source)?)?;
    }
    Ok(links)
}

fn doc_of(source: Source, imports: Items<Link>, alloc: Global) -> Doc
    ensures { result ≡ spec.doc_of source imports }
{
    let Source { path, document } = source;
    Doc {
        path,
        document,
        imports,
        structs: Items::new(alloc),
    }
}

/// The documents of the sources, of which there are at most 64, with their links and without struct
/// names.
pub fn docs_of(alloc: Global, sources: Sources) -> Result<Items<Doc>, NoMemory>
    requires few { length sources ≤ most_documents }
    requires named { spec.AreNamed (paths sources) sources }
    ensures { IfOk result (spec.AreDocs sources) }
{
    let mut links = all_links(alloc, &sources)?;
    let mut docs = Items::new(alloc);
    for source in sources {
        let imports = links.remove(0);
        docs.push(doc_of(source, imports, alloc))?;
    }
    Ok(docs)
}
