//! Written types.

ghost use Rattle.std.specs.Prelude.{◌≡◌, IfOk};
ghost use Rattle.wdl_value.specs.declared.ty.Ty.TheVariants as ty;
ghost use Rattle.wdl_check_rules.specs.Locals as local;
ghost use Rattle.wdl_check_types.specs.Outcome as outcome;
ghost use Rattle.wdl_check_types.specs.Written as spec;

use crate::place::from_to;
use sqlite_items::Boxed;
use std::alloc::Global;
use wdl_ast::{BaseType, Ident, TypeTree};
use wdl_check_rules::{CheckFault, Local, stands_for};
use wdl_names::Indexed;
use wdl_value::{NoMemory, Span, Ty, is_scalar};

fn struct_type(alloc: Global, ident: &Ident, locals: &Indexed<Local>) -> Result<Ty, CheckFault>
    ensures { outcome.Answers (spec.struct_written (local.stands_for locals.now) ident.now) result }
{
    match stands_for(locals, &ident.name) {
        Some(name) => Ok(Ty::Struct(name.copy(alloc)?)),
        None => Err(CheckFault::Bad {
            code: 329,
            span: ident.span,
        }),
    }
}

fn map(alloc: Global, key: Ty, value: Ty, span: Span) -> Result<Ty, CheckFault>
    ensures { outcome.Answers (spec.map_written span key value) result }
{
    if !is_scalar(&key) {
        return Err(CheckFault::Bad { code: 329, span });
    }
    Ok(Ty::map_of(alloc, key, value)?)
}

/// The type with its `?`, of which more than one count as one.
fn marked(alloc: Global, questions: &[Span], t: Ty) -> Result<Ty, NoMemory>
    ensures { IfOk result (λ u. u ≡ spec.marked questions.now t) }
{
    match questions {
        [] => Ok(t),
        [..] => Ok(Ty::Opt(Boxed::new(alloc, t)?)),
    }
}

#[cycle(written)]
fn after_key(
    alloc: Global,
    value: &TypeTree,
    key: Ty,
    span: Span,
    locals: &Indexed<Local>,
) -> Result<Ty, CheckFault>
    ensures { outcome.Answers (outcome.then_ (spec.written (local.stands_for locals.now) value.now) (λ t. spec.map_written span key t)) result }
{
    let value = written_type(alloc, value, locals)?;
    map(alloc, key, value, span)
}

#[cycle(written)]
fn after_left(
    alloc: Global,
    right: &TypeTree,
    left: Ty,
    locals: &Indexed<Local>,
) -> Result<Ty, CheckFault>
    ensures { outcome.Answers (outcome.then_ (spec.written (local.stands_for locals.now) right.now) (λ u. outcome.done (ty.Pair left u))) result }
{
    let right = written_type(alloc, right, locals)?;
    Ok(Ty::pair_of(alloc, left, right)?)
}

#[cycle(written)]
fn base(alloc: Global, base: &BaseType<TypeTree>, locals: &Indexed<Local>) -> Result<Ty, CheckFault>
    ensures { outcome.Answers (spec.base_written (spec.written (local.stands_for locals.now)) (local.stands_for locals.now) base.now) result }
{
    match base {
        BaseType::Boolean(_) => Ok(Ty::Bool),
        BaseType::Int(_) => Ok(Ty::Int),
        BaseType::Str(_) => Ok(Ty::Str),
        BaseType::File(_) => Ok(Ty::File),
        BaseType::Struct(ident) => struct_type(alloc, ident, locals),
        BaseType::Array { item, plus, .. } => {
            let item = written_type(alloc, item.get(), locals)?;
            Ok(Ty::array_of(alloc, item, plus.is_some())?)
        }
        BaseType::Map {
            word,
            key,
            value,
            closing,
            ..
        } => {
            let key = written_type(alloc, key.get(), locals)?;
            after_key(alloc, value.get(), key, from_to(*word, *closing), locals)
        }
        BaseType::Pair { left, right, .. } => {
            let left = written_type(alloc, left.get(), locals)?;
            after_left(alloc, right.get(), left, locals)
        }
    }
}

/// The type that a document writes, in the names of the library (OpenWDL 1.1, "Types"). `Bad` comes
/// with 329 exactly where it names a struct that the document does not know, or a map has other
/// keys than Boolean, Int, String or File. More than one `?` counts as one.
#[cycle(written)]
pub fn written_type(
    alloc: Global,
    tree: &TypeTree,
    locals: &Indexed<Local>,
) -> Result<Ty, CheckFault>
    ensures { outcome.Answers (spec.written (local.stands_for locals.now) tree.now) result }
{
    let t = base(alloc, &tree.base, locals)?;
    Ok(marked(alloc, tree.questions.as_slice(), t)?)
}
