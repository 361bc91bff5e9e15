use crate::expr::Expr;
use crate::leaf::Ident;
use crate::type_tree::TypeTree;
use sqlite_items::Items;
use wdl_value::Span;

/// `Type name = expr`.
#[derive(Drop)]
pub struct Declaration {
    pub ty: TypeTree,
    pub name: Ident,
    pub assign: Span,
    pub value: Expr,
}

/// `= expr` behind an input or an argument.
#[derive(Drop)]
pub struct Assigned {
    pub assign: Span,
    pub value: Expr,
}

/// `Type name`, with its default where it has one.
#[derive(Drop)]
pub struct InputDeclaration {
    pub ty: TypeTree,
    pub name: Ident,
    pub preset: Option<Assigned>,
}

/// `input { .. }` of a task or a workflow.
#[derive(Drop)]
pub struct InputSection {
    pub keyword: Span,
    pub opening: Span,
    pub inputs: Items<InputDeclaration>,
    pub closing: Span,
}

/// `output { .. }` of a task or a workflow.
#[derive(Drop)]
pub struct OutputSection {
    pub keyword: Span,
    pub opening: Span,
    pub outputs: Items<Declaration>,
    pub closing: Span,
}
