ghost use Rattle.std.specs.Prelude.{◌≡◌, IfOk};
ghost use Rattle.cwl_image.specs.Image.{type_of};

use cwl_model::CwlTy;
use std::alloc::Global;
use wdl_value::{Boxed, NoMemory, Ty};

/// The CWL type of a type: `long` for Int, an array with or without `+` for an array, a type or
/// `null` for an optional one.
pub fn cwl_type(alloc: Global, ty: &Ty) -> Result<CwlTy, NoMemory>
    ensures { IfOk result (λ t. t ≡ type_of ty.now) }
{
    match ty {
        Ty::Bool => Ok(CwlTy::Bool),
        Ty::Int => Ok(CwlTy::Long),
        Ty::File => Ok(CwlTy::File),
        Ty::Array { item, .. } => {
            let item = cwl_type(alloc, item.get())?;
            Ok(CwlTy::List(Boxed::new(alloc, item)?))
        }
        Ty::Opt(inner) => {
            let inner = cwl_type(alloc, inner.get())?;
            Ok(CwlTy::Null(Boxed::new(alloc, inner)?))
        }
        _ => Ok(CwlTy::Str),
    }
}
