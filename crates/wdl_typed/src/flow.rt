use crate::expr::{TExpr, TField};
use crate::task::{TDecl, TInput};
use sqlite_items::Items;
use wdl_value::{Name, Span};

/// What a call runs: a task or a workflow, by its number among those of the library.
#[derive(Clone, Copy, Debug, PartialEq, Eq)]
pub enum Target {
    Task(u32),
    Flow(u32),
}

/// A call (OpenWDL 1.1, "Call Statement").
#[derive(Debug, Drop)]
pub struct TCall {
    pub name: Name,
    pub target: Target,
    pub args: Items<TField<TExpr>>,
    pub after: Items<Name>,
    pub span: Span,
}

/// A scatter (OpenWDL 1.1, "Scatter"). Blocks of one kind in one body are numbered from 0, in the
/// order of the text.
#[derive(Debug, Drop)]
pub struct TScatter<S> {
    pub number: u32,
    pub item: Name,
    pub over: TExpr,
    pub body: Items<S>,
    pub span: Span,
}

/// A condition (OpenWDL 1.1, "Conditional"), numbered as a scatter is.
#[derive(Debug, Drop)]
pub struct TIf<S> {
    pub number: u32,
    pub cond: TExpr,
    pub body: Items<S>,
    pub span: Span,
}

/// A statement of a workflow's body.
#[derive(Debug, Drop)]
pub enum Statement {
    Decl(TDecl),
    Call(TCall),
    Scatter(TScatter<Statement>),
    If(TIf<Statement>),
}

/// A workflow (OpenWDL 1.1, "Workflow Definition"). Its lists are in dependency order.
#[derive(Debug, Drop)]
pub struct FlowDef {
    pub name: Name,
    pub inputs: Items<TInput>,
    pub body: Items<Statement>,
    pub outputs: Items<TDecl>,
    pub span: Span,
}
