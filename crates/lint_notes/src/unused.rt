//! Inputs and declarations that nothing uses.

use crate::lint::{Lint, Warning};
use crate::names::Names;
use wdl_ast::{BaseType, Declaration, InputDeclaration, TypeTree};

/// How the names of files end that stand beside others, as tools expect them: no command names
/// them.
const INDEXES: [&str; 8] = ["index", "idx", "bai", "tbi", "crai", "csi", "fai", "dict"];

/// Whether a type is File, or an array of Files.
fn is_file(ty: &TypeTree) -> bool {
    match &ty.base {
        BaseType::File(_) => true,
        BaseType::Array { item, .. } => matches!(item.get().base, BaseType::File(_)),
        _ => false,
    }
}

/// Whether an input is, by its name, the index of another one.
fn is_index(input: &InputDeclaration) -> bool {
    let name = input.name.name.as_str();
    is_file(&input.ty) && INDEXES.iter().any(|ending| name.ends_with(*ending))
}

/// The warning on an input.
pub fn unused_input<'a>(names: &Names, input: &'a InputDeclaration) -> Option<Warning<'a>> {
    let name = input.name.name.as_str();
    if names.get(name).used || is_index(input) {
        return None;
    }
    Some(Warning {
        span: input.name.span,
        lint: Lint::UnusedInput(name),
    })
}

/// The warning on a declaration.
pub fn unused_declaration<'a>(names: &Names, declaration: &'a Declaration) -> Option<Warning<'a>> {
    let name = declaration.name.name.as_str();
    if names.get(name).used {
        return None;
    }
    Some(Warning {
        span: declaration.name.span,
        lint: Lint::UnusedDeclaration(name),
    })
}
