use crate::local::Local;
use wdl_names::{Indexed, NameStack, TypedNames};
use wdl_value::StructDef;

/// What an expression may refer to: names and structs, and whether functions may see what the
/// command of a task left. `locals` are the names under which the document knows structs. `calls`
/// are the names of the calls that are seen, which stand for no value. `placeholder` says whether
/// the expression stands inside a placeholder, where `+` takes undefined operands.
#[derive(Drop)]
pub struct Scope<'s, 'a> {
    pub names: &'s TypedNames,
    pub calls: &'s NameStack,
    pub structs: &'s Indexed<'a, StructDef>,
    pub locals: &'s Indexed<'a, Local<'a>>,
    pub outputs: bool,
    pub placeholder: bool,
}
