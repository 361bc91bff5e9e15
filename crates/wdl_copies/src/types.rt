//! Copies of written types, with the names of structs as the library has them.

ghost use Rattle.std.specs.Prelude.{◌≡◌, IfOk};
ghost use Rattle.wdl_check_rules.specs.Locals as local;
ghost use Rattle.wdl_copies.specs.Renamed as spec;

use crate::keeping::boxed;
use crate::leaf::library_ident;
use sqlite_items::{Boxed, Items};
use std::alloc::Global;
use wdl_ast::{BaseType, TypeTree};
use wdl_check_rules::Local;
use wdl_names::Indexed;
use wdl_value::NoMemory;

/// A copy of a written type in a box, which costs little where it is let go.
#[cycle(types)]
#[tactic(auto, using(crate::proofs::TypeLaws::renamed_out))]
pub fn boxed_type(
    alloc: Global,
    tree: &TypeTree,
    locals: &Indexed<Local>,
) -> Result<Boxed<TypeTree>, NoMemory>
    ensures { IfOk result (λ t. t ≡ spec.renamed_type (local.stands_for locals.now) tree.now) }
{
    boxed(alloc, copy_type(alloc, tree, locals)?)
}

#[cycle(types)]
#[tactic(auto, using(crate::proofs::TypeLaws::renamed_out))]
fn copy_base(
    alloc: Global,
    base: &BaseType<TypeTree>,
    locals: &Indexed<Local>,
) -> Result<BaseType<TypeTree>, NoMemory>
    ensures { IfOk result (λ b. b ≡ spec.base_with (local.stands_for locals.now) base.now) }
{
    match base {
        BaseType::Boolean(span) => Ok(BaseType::Boolean(*span)),
        BaseType::Int(span) => Ok(BaseType::Int(*span)),
        BaseType::Str(span) => Ok(BaseType::Str(*span)),
        BaseType::File(span) => Ok(BaseType::File(*span)),
        BaseType::Struct(ident) => Ok(BaseType::Struct(library_ident(alloc, ident, locals)?)),
        BaseType::Array {
            word,
            opening,
            item,
            closing,
            plus,
        } => Ok(BaseType::Array {
            word: *word,
            opening: *opening,
            item: boxed_type(alloc, item.get(), locals)?,
            closing: *closing,
            plus: *plus,
        }),
        BaseType::Map {
            word,
            opening,
            key,
            comma,
            value,
            closing,
        } => {
            let key = boxed_type(alloc, key.get(), locals)?;
            Ok(BaseType::Map {
                word: *word,
                opening: *opening,
                key,
                comma: *comma,
                value: boxed_type(alloc, value.get(), locals)?,
                closing: *closing,
            })
        }
        BaseType::Pair {
            word,
            opening,
            left,
            comma,
            right,
            closing,
        } => {
            let left = boxed_type(alloc, left.get(), locals)?;
            Ok(BaseType::Pair {
                word: *word,
                opening: *opening,
                left,
                comma: *comma,
                right: boxed_type(alloc, right.get(), locals)?,
                closing: *closing,
            })
        }
    }
}

/// A copy of a written type, with the names of structs as the library has them.
#[cycle(types)]
#[tactic(auto, using(crate::proofs::TypeLaws::renamed_out))]
pub fn copy_type(
    alloc: Global,
    tree: &TypeTree,
    locals: &Indexed<Local>,
) -> Result<TypeTree, NoMemory>
    ensures { IfOk result (λ t. t ≡ spec.renamed_type (local.stands_for locals.now) tree.now) }
{
    let questions = Items::from_slice(alloc, tree.questions.as_slice())?;
    Ok(TypeTree {
        base: copy_base(alloc, &tree.base, locals)?,
        questions,
    })
}
