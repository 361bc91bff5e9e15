use crate::leaf::{Ident, PlainString};
use crate::task::TaskSection;
use crate::type_tree::TypeTree;
use crate::workflow::{Renaming, Workflow};
use sqlite_items::Items;
use wdl_value::Span;

/// A document of version 1.1: its sections, in order (OpenWDL 1.1, "WDL documents").
#[derive(Drop)]
pub struct Document {
    pub version: Span,
    pub number: Span,
    pub sections: Items<Section>,
}

/// A section of a document.
#[derive(Drop)]
pub enum Section {
    Import(Import),
    Struct(StructSection),
    Task(TaskSection),
    Workflow(Workflow),
}

/// `import "uri" as name alias A as B`.
#[derive(Drop)]
pub struct Import {
    pub keyword: Span,
    pub uri: PlainString,
    pub namespace: Option<Renaming>,
    pub aliases: Items<Alias>,
}

/// `alias from as to`.
#[derive(Drop)]
pub struct Alias {
    pub keyword: Span,
    pub from: Ident,
    pub as_word: Span,
    pub to: Ident,
}

/// `struct Name { Type member .. }`.
#[derive(Drop)]
pub struct StructSection {
    pub keyword: Span,
    pub name: Ident,
    pub opening: Span,
    pub members: Items<StructMember>,
    pub closing: Span,
}

/// `Type name` in a struct.
#[derive(Drop)]
pub struct StructMember {
    pub ty: TypeTree,
    pub name: Ident,
}
