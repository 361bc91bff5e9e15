ghost use Rattle.std.specs.Prelude.{◌≡◌};
ghost use Rattle.run_keeper.specs.declared.error.RowFault.TheVariants.{NoMemory as OutOfMemory};

use std::alloc::AllocError;
use thiserror::Error;
use wdl_value::NoMemory;

/// Why a string gives no entry.
#[derive(Clone, Copy, Debug, PartialEq, Eq, Error)]
pub enum RowFault {
    /// It is no row's text.
    #[error("the text is no row of a journal")]
    NotARow,
    #[error("out of memory")]
    NoMemory,
}

impl From<NoMemory> for RowFault {
    ghost from_gives = { λ _ e. e ≡ OutOfMemory };

    fn from(_e: NoMemory) -> RowFault {
        RowFault::NoMemory
    }
}

impl From<AllocError> for RowFault {
    ghost from_gives = { λ _ e. e ≡ OutOfMemory };

    fn from(_e: AllocError) -> RowFault {
        RowFault::NoMemory
    }
}
