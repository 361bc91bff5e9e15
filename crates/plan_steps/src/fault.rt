//! Why a plan goes no further.

ghost use Rattle.std.specs.Prelude.{◌≡◌};
ghost use Rattle.plan_steps.specs.declared.fault.PlanFault.TheVariants.{NoMemory as OutOfMemory};

use std::alloc::AllocError;
use thiserror::Error;
use wdl_value::NoMemory;

/// Why a plan goes no further: the flow over the answers has more than 20,000 jobs or more than
/// 1,000,000 instances of statements, or out of memory.
#[derive(Clone, Copy, Debug, PartialEq, Eq, Error)]
pub enum PlanFault {
    #[error("more than 20,000 jobs or 1,000,000 instances of statements")]
    TooMany,
    #[error("out of memory")]
    NoMemory,
}

impl From<NoMemory> for PlanFault {
    ghost from_gives = { λ _ e. e ≡ OutOfMemory };

    fn from(_e: NoMemory) -> PlanFault {
        PlanFault::NoMemory
    }
}

impl From<AllocError> for PlanFault {
    ghost from_gives = { λ _ e. e ≡ OutOfMemory };

    fn from(_e: AllocError) -> PlanFault {
        PlanFault::NoMemory
    }
}
