use crate::expr::Expr;
use crate::leaf::{Attribute, Ident};
use crate::meta::MetaSection;
use crate::section::{Declaration, InputSection, OutputSection};
use crate::string::StringPart;
use crate::token::Fence;
use sqlite_items::Items;
use wdl_value::Span;

/// A task: its sections and private declarations, in order (OpenWDL 1.1, "Task definition").
#[derive(Drop)]
pub struct TaskSection {
    pub keyword: Span,
    pub name: Ident,
    pub opening: Span,
    pub elements: Items<TaskElement>,
    pub closing: Span,
}

/// A section of a task, or a private declaration.
#[derive(Drop)]
pub enum TaskElement {
    Input(InputSection),
    Output(OutputSection),
    Runtime(RuntimeSection),
    Meta(MetaSection),
    ParameterMeta(MetaSection),
    Command(CommandSection),
    Declaration(Declaration),
}

/// `runtime { .. }`.
#[derive(Drop)]
pub struct RuntimeSection {
    pub keyword: Span,
    pub opening: Span,
    pub attributes: Items<Attribute<Expr>>,
    pub closing: Span,
}

/// `command { .. }` or `command <<< .. >>>`.
#[derive(Drop)]
pub struct CommandSection {
    pub keyword: Span,
    pub fence: Fence,
    pub opening: Span,
    pub parts: Items<StringPart<Expr>>,
    pub closing: Span,
}
