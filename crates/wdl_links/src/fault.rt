ghost use Rattle.std.specs.Prelude.{◌≡◌};
ghost use Rattle.wdl_links.specs.declared.fault.LinkFault.TheVariants.{NoMemory as OutOfMemory};

use std::alloc::AllocError;
use thiserror::Error;
use wdl_value::{NoMemory, Span};

/// Why a document of a library is amiss: a code, and where it holds.
#[derive(Clone, Copy, Debug, PartialEq, Eq, Error)]
pub enum LinkFault {
    #[error("error {code}")]
    Bad { code: u16, span: Span },
    #[error("out of memory")]
    NoMemory,
}

impl From<NoMemory> for LinkFault {
    ghost from_gives = { λ _ e. e ≡ OutOfMemory };

    fn from(_e: NoMemory) -> LinkFault {
        LinkFault::NoMemory
    }
}

impl From<AllocError> for LinkFault {
    ghost from_gives = { λ _ e. e ≡ OutOfMemory };

    fn from(_e: AllocError) -> LinkFault {
        LinkFault::NoMemory
    }
}
