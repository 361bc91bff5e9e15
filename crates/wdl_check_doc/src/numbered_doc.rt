//! The documents of a library with their numbers.

ghost use Rattle.std.specs.Prelude.{◌≡◌, map, IfOk};
ghost use Rattle.struct_names.specs.Known.{known_of};
ghost use Rattle.wdl_check_doc.specs.Known.{parts_from};
ghost use Rattle.wdl_check_doc.specs.Parts as spec;

use std::alloc::Global;
use struct_names::DocNames;
use wdl_check_rules::Local;
use wdl_library::Doc;
use wdl_names::Indexed;
use wdl_value::NoMemory;

/// A document of a library with its number, and the names under which it knows structs.
#[derive(Clone, Copy)]
pub struct Part<'d, 'n, 'k> {
    pub number: u32,
    pub doc: &'d Doc,
    pub locals: &'k Indexed<'n, Local<'d>>,
}

/// The documents with numbers from 0 on.
pub fn parts_of<'d, 'n, 'k>(
    alloc: Global,
    docs: &'k [DocNames<'d, 'n>],
) -> Result<Vec<Part<'d, 'n, 'k>>, NoMemory>
    ensures { IfOk result (λ ps. map spec.part_of ps.items ≡ parts_from 0 (map known_of docs.now)) }
{
    let mut parts = Vec::new(alloc);
    let mut number: u32 = 0;
    for known in docs {
        parts.push(Part {
            number,
            doc: known.doc,
            locals: &known.locals,
        })?;
        number = number.checked_add(1).ok_or(NoMemory)?;
    }
    Ok(parts)
}
