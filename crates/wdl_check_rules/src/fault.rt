ghost use Rattle.std.specs.Prelude.{◌≡◌};
ghost use Rattle.wdl_check_rules.specs.declared.fault.CheckFault.TheVariants.{
  NoMemory as OutOfMemory,
};

use std::alloc::{AllocError, AllocFailed};
use thiserror::Error;
use wdl_value::{NoMemory, Span};

/// Why an expression has no typing: a code from 301 to 310, 312 or 329, and where its condition
/// holds. Or an allocation failed.
#[derive(Clone, Copy, Debug, PartialEq, Eq, Error)]
pub enum CheckFault {
    #[error("error {code}")]
    Bad { code: u16, span: Span },
    #[error("out of memory")]
    NoMemory,
}

impl From<NoMemory> for CheckFault {
    ghost from_gives = { λ _ e. e ≡ OutOfMemory };

    fn from(_e: NoMemory) -> CheckFault {
        CheckFault::NoMemory
    }
}

impl From<AllocError> for CheckFault {
    ghost from_gives = { λ _ e. e ≡ OutOfMemory };

    fn from(_e: AllocError) -> CheckFault {
        CheckFault::NoMemory
    }
}

impl<T: Drop> From<AllocFailed<T>> for CheckFault {
    ghost from_gives = { λ _ e. e ≡ OutOfMemory };

    fn from(_e: AllocFailed<T>) -> CheckFault {
        CheckFault::NoMemory
    }
}
