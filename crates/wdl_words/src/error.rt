ghost use Rattle.std.specs.Prelude.{◌≡◌};
ghost use Rattle.clap.specs.Words.{kind_of};
ghost use Rattle.wdl_words.specs.Faults.{fault_for};
ghost use Rattle.wdl_words.specs.declared.error.WordFault.TheVariants.{NoMemory as WordNoMemory};

use clap::error::ErrorKind;
use std::alloc::AllocError;
use thiserror::Error;

/// Why words ask for nothing.
#[derive(Clone, Copy, Debug, PartialEq, Eq, Error)]
pub enum WordFault {
    /// They have no reading.
    #[error("the words of the command line have no reading")]
    Usage,
    #[error("out of memory")]
    NoMemory,
}

impl From<AllocError> for WordFault {
    ghost from_gives = { λ _ e. e ≡ WordNoMemory };

    fn from(_e: AllocError) -> WordFault {
        WordFault::NoMemory
    }
}

impl From<wdl_value::NoMemory> for WordFault {
    ghost from_gives = { λ _ e. e ≡ WordNoMemory };

    fn from(_e: wdl_value::NoMemory) -> WordFault {
        WordFault::NoMemory
    }
}

impl From<clap::Error> for WordFault {
    ghost from_gives = { λ error fault. fault ≡ fault_for (kind_of error) };

    fn from(error: clap::Error) -> WordFault {
        match error.kind() {
            ErrorKind::OutOfMemory => WordFault::NoMemory,
            _ => WordFault::Usage,
        }
    }
}
