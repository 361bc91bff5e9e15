//! The check of a library.

ghost use Rattle.std.specs.Prelude.{length};
ghost use Rattle.wdl_check_types.specs.Outcome.{Answers};
ghost use Rattle.wdl_check_doc.specs.Checked as spec;

use crate::checked::check_parts;
use crate::numbered_doc::parts_of;
use std::alloc::Global;
use struct_names::{knowns_of, namings_of};
use wdl_check_rules::CheckFault;
use wdl_library::Library;
use wdl_names::Indexed;
use wdl_typed::{Checked, CheckedParts};

fn check_library(alloc: Global, library: &Library) -> Result<CheckedParts, CheckFault>
    ensures { Answers (spec.typed library.now.docs library.now.structs) result }
{
    let structs = Indexed::new(alloc, library.structs.as_slice())?;
    let namings = namings_of(alloc, library.docs.as_slice())?;
    let knowns = knowns_of(alloc, namings.as_slice())?;
    let parts = parts_of(alloc, knowns.as_slice())?;
    check_parts(alloc, &structs, parts.as_slice())
}

/// The checked form of a library: its structs, and the tasks and workflows of all its documents by
/// document number and in the order of the text, with all types (OpenWDL 1.1). `Bad` comes exactly
/// where the rules give no checked form; the code's condition holds at the span, which stands in a
/// document of the library.
pub fn check(alloc: Global, library: &Library) -> Result<Checked, CheckFault>
    ensures typing { spec.IsTyped (spec.typed library.now.docs library.now.structs) result }
    ensures place { spec.IsPlaced (length library.now.docs) result }
{
    match check_library(alloc, library) {
        Ok(parts) => Ok(Checked::new(parts)),
        Err(fault) => Err(fault),
    }
}
