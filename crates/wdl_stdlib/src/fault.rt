ghost use Rattle.std.specs.Prelude.{◌≡◌};
ghost use Rattle.wdl_stdlib.specs.declared.fault.EvalFault.TheVariants.{NoMemory as OutOfMemory};

use std::alloc::AllocError;
use thiserror::Error;
use wdl_value::{EvalCode, NoMemory};

/// Why an evaluation gives no value: one of the codes 501 to 516, or want of memory.
#[derive(Clone, Copy, Debug, PartialEq, Eq, Error)]
pub enum EvalFault {
    #[error("the evaluation gives no value")]
    Code(EvalCode),
    #[error("out of memory")]
    NoMemory,
}

impl From<NoMemory> for EvalFault {
    ghost from_gives = { λ _ e. e ≡ OutOfMemory };

    fn from(_e: NoMemory) -> EvalFault {
        EvalFault::NoMemory
    }
}

impl From<AllocError> for EvalFault {
    ghost from_gives = { λ _ e. e ≡ OutOfMemory };

    fn from(_e: AllocError) -> EvalFault {
        EvalFault::NoMemory
    }
}
