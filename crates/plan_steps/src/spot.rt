//! Where instances of bodies stand.

ghost use Rattle.std.specs.Prelude.{◌≡◌, ◌<◌, length, slice_get, IfOk};
ghost use Rattle.plan_steps.specs.Doing as spec;

use plan_growth::Instance;
use std::alloc::Global;
use wdl_value::{Items, NoMemory, Place, copy_place};

/// Where the cells of an instance and of those round it begin, and its place.
#[derive(Debug, Drop)]
pub struct Spot {
    pub bases: Items<usize>,
    pub place: Place,
}

/// Where an instance stands.
pub fn spot_of(alloc: Global, instances: &[Instance], number: usize) -> Result<Spot, NoMemory>
    requires { number < length instances.now }
    ensures { IfOk result (λ spot. spot ≡ record { bases = spec.bases_in (slice_get instances.now number); place = spec.place_in (slice_get instances.now number) }) }
{
    let instance = &instances[number];
    let bases = Items::from_slice(alloc, instance.bases.as_slice())?;
    let place = copy_place(alloc, &instance.place)?;
    Ok(Spot { bases, place })
}
