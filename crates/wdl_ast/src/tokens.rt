//! The tokens that a tree stands for.

mod call;
mod document;
mod expr;
mod list;
mod meta;
mod section;
mod string;
mod task;
mod type_tree;
mod workflow;

pub use document::tokens_of;
