//! Tokens and syntax trees of WDL 1.1 documents.
//!
//! A tree keeps each word and mark with its span, and so determines its tokens. Comments are lost.
#![tactic(auto)]

mod document;
mod expr;
mod leaf;
mod meta;
mod section;
mod string;
mod task;
mod token;
mod tokens;
mod type_tree;
mod workflow;

pub use document::{Alias, Document, Import, Section, StructMember, StructSection};
pub use expr::{BinaryOperator, Expr, MapEntry, MemberEntry, UnaryOperator};
pub use leaf::{Attribute, Chars, Ident, ListItem, PlainString, Word};
pub use meta::{MetaSection, MetaValue, Number};
pub use section::{Assigned, Declaration, InputDeclaration, InputSection, OutputSection};
pub use string::{Placeholder, PlaceholderOption, PlaceholderOptions, StringPart, StringTree};
pub use task::{CommandSection, RuntimeSection, TaskElement, TaskSection};
pub use token::{Fence, HoleMark, Kind, Mark, Quote, Token};
pub use tokens::tokens_of;
pub use type_tree::{BaseType, TypeTree};
pub use workflow::{
    After, Argument, Call, CallBody, CallInputs, CallTarget, Conditional, Renaming, Scatter,
    Statement, TargetMember, Workflow, WorkflowElement,
};
