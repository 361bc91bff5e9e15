use crate::ty::Ty;
use sqlite_items::Items;

/// How an operator takes two operands: the types to which they are cast, and the type of the
/// result.
#[derive(Debug, Drop)]
pub struct OpTyping {
    pub left: Ty,
    pub right: Ty,
    pub result: Ty,
}

/// How a function takes its arguments: the types to which they are cast, and the type of the
/// result.
#[derive(Debug, Drop)]
pub struct FuncTyping {
    pub args: Items<Ty>,
    pub result: Ty,
}
