//! What a layout holds.

use wdl_value::{Items, Key};

/// A name that an expression needs, and where its cell stands: in the instance of the body at that
/// level, at that slot. A workflow's own body has the level 0, and the body of a block one more
/// than the body that the block stands in.
#[derive(Debug, Drop)]
pub struct Need {
    pub key: Key,
    pub level: usize,
    pub slot: usize,
}

/// What a statement needs, and the slots of what it gives out: a run of names, and a run of calls.
#[derive(Debug, Drop)]
pub struct StatementLayout {
    /// The names of its expression: of the declaration, of all arguments of the call, of the
    /// collection or of the condition.
    pub needs: Items<Need>,
    /// The calls that it comes after, as names.
    pub after: Items<Need>,
    pub first_name: usize,
    pub names: usize,
    pub first_call: usize,
    pub calls: usize,
    /// The slot that tells that the statement is done: its name's, its call's, or that of a block.
    pub done: usize,
    /// The number of the body, for a block; else 0.
    pub inner: usize,
}

/// The slots of a body: the names that stand before its statements (inputs, or the item of a
/// scatter), those that its statements give out, and those behind them (outputs); then the calls
/// that its statements give out; then one for each block.
#[derive(Debug, Drop)]
pub struct BodyLayout {
    pub flow: usize,
    /// The numbers of the statements that lead to it from the workflow's own body.
    pub path: Items<usize>,
    pub level: usize,
    /// How many slots it has.
    pub cells: usize,
    pub first_name: usize,
    pub names: usize,
    pub first_call: usize,
    pub calls: usize,
    pub statements: Items<StatementLayout>,
}

/// The number of a workflow's own body, and what the defaults of its inputs and its outputs need.
/// Its inputs stand from the slot 0 on.
#[derive(Debug, Drop)]
pub struct FlowLayout {
    pub body: usize,
    pub inputs: Items<Items<Need>>,
    pub outputs: Items<Items<Need>>,
    pub first_output: usize,
}

/// The layout of all workflows of a checked form, by their numbers, and of all bodies in them.
#[derive(Debug, Drop)]
pub struct Layout {
    pub flows: Items<FlowLayout>,
    pub bodies: Items<BodyLayout>,
}
