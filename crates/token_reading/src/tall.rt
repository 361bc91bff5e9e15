//! Trees with their depths.

ghost use Rattle.std.specs.Prelude.{◌≡◌};

use sqlite_items::Items;
use wdl_ast::{Expr, ListItem};
use wdl_value::Span;

/// A tree with its depth.
pub struct Tall<T> {
    pub tree: T,
    pub depth: usize,
}

/// One call wherever a tree is let go: the glue of a large enum stands here, and not at each early
/// return.
impl<T: Drop> Drop for Tall<T> {
    fn drop(self) {
        let Tall {
            tree,
            depth: _depth,
        } = self;
        drop(tree);
    }
}

impl<T> Tall<T> {
    /// The tree alone.
    pub fn into_tree(self) -> T
        ensures { result ≡ self.tree }
    {
        let Tall {
            tree,
            depth: _depth,
        } = self;
        tree
    }
}

/// The elements of a list up to its closing mark, with the depth of the deepest.
#[derive(Drop)]
pub struct Closed<T> {
    pub items: Items<ListItem<T>>,
    pub inside: usize,
    pub closing: Span,
}

/// What was read of a node with operators, members or indices: how many, and the depth of its
/// deepest part. The depth of the tree is the sum of both.
#[derive(Drop)]
pub struct Chain {
    pub left: Tall<Expr>,
    pub links: usize,
    pub inside: usize,
}

/// Where an expression stands: behind an operator of its own, or alone.
#[derive(Clone, Copy, Debug, PartialEq, Eq)]
pub enum Rule {
    Unary,
    Expr,
}
