//! Metadata of what is no parameter.

use crate::lint::{Lint, Warning};
use crate::names::Names;
use wdl_ast::Word;

/// The warning on a name in the `parameter_meta` of a task or workflow with that name.
pub fn no_parameter<'a>(names: &Names, key: &'a Word, part: &'a str) -> Option<Warning<'a>> {
    let name = key.text.as_str();
    if names.get(name).parameter {
        return None;
    }
    Some(Warning {
        span: key.span,
        lint: Lint::NoParameter { key: name, part },
    })
}
