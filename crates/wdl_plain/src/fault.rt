ghost use Rattle.std.specs.Prelude.{◌≡◌};
ghost use Rattle.wdl_plain.specs.declared.fault.PlainFault.TheVariants.{NoMemory as OutOfMemory};

use std::alloc::AllocError;
use thiserror::Error;
use wdl_value::NoMemory;

/// Why a flow is not given: it has more than 20,000 jobs or more than 1,000,000 instances of
/// statements, or memory is wanting.
#[derive(Clone, Copy, Debug, PartialEq, Eq, Error)]
pub enum PlainFault {
    #[error("more than 20,000 jobs or 1,000,000 instances of statements")]
    TooMany,
    #[error("out of memory")]
    NoMemory,
}

impl From<NoMemory> for PlainFault {
    ghost from_gives = { λ _ e. e ≡ OutOfMemory };

    fn from(_e: NoMemory) -> PlainFault {
        PlainFault::NoMemory
    }
}

impl From<AllocError> for PlainFault {
    ghost from_gives = { λ _ e. e ≡ OutOfMemory };

    fn from(_e: AllocError) -> PlainFault {
        PlainFault::NoMemory
    }
}
