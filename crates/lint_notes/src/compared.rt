//! Strings that are compared by order.

use crate::lint::{Lint, Warning};
use crate::names::Names;
use crate::shape::shape_of;
use wdl_ast::Expr;
use wdl_names::Indexed;
use wdl_value::StructDef;

/// Whether an expression is known to be a String.
fn is_string(structs: &Indexed<StructDef>, names: &Names, e: &Expr) -> bool {
    match shape_of(structs, names, e) {
        Some(shape) => shape.is_string(),
        None => false,
    }
}

/// The warning on a comparison, both sides of which are Strings where one is.
pub fn compared<'w>(structs: &Indexed<StructDef>, names: &Names, e: &Expr) -> Option<Warning<'w>> {
    let Expr::Binary {
        left,
        sign,
        right,
        ..
    } = e
    else {
        return None;
    };
    if is_string(structs, names, left.get()) || is_string(structs, names, right.get()) {
        return Some(Warning {
            span: *sign,
            lint: Lint::Texts,
        });
    }
    None
}
