//! Faults and places.

ghost use Rattle.std.specs.Prelude.{◌≡◌, ◌++◌, ◌∷◌, [], IfOk, OnOk};
ghost use Rattle.wdl_base.specs.declared.place.Segment.TheVariants.{Call as call_segment};
ghost use Rattle.wdl_typed.specs.Flow.{fault_at};

use plan_bodies::place_below;
use std::alloc::Global;
use wdl_value::{EvalCode, Fault, Items, Name, NoMemory, Place, Segment, Text, Why, copy_place};

/// The place of a call below that of its body.
pub fn call_place(alloc: Global, place: &Place, name: &Name) -> Result<Place, NoMemory>
    ensures { IfOk result (λ p. p ≡ place.now ++ call_segment name.now ∷ []) }
{
    let name = name.copy(alloc)?;
    place_below(alloc, place, Segment::Call(name))
}

/// Adds the fault of an expression.
pub fn push_code(
    alloc: Global,
    place: &Place,
    name: &Name,
    code: EvalCode,
    faults: &mut Items<Fault>,
) -> Result<(), NoMemory>
    ensures { OnOk result (faults.new ≡ faults.old ++ fault_at place.now name.now code ∷ []) }
{
    let place = copy_place(alloc, place)?;
    let name = name.to_text(alloc)?;
    faults.push(Fault {
        place,
        name,
        why: Why::Code(code),
    })?;
    Ok(())
}

/// Adds the fault of a call.
pub fn push_failing(
    alloc: Global,
    place: &Place,
    name: Text,
    why: Why,
    faults: &mut Items<Fault>,
) -> Result<(), NoMemory>
    ensures { OnOk result (faults.new ≡ faults.old ++ record { place = place.now; name = name; why = why } ∷ []) }
{
    let place = copy_place(alloc, place)?;
    faults.push(Fault { place, name, why })?;
    Ok(())
}
