ghost use Rattle.std.specs.Prelude.{◌≡◌};
ghost use Rattle.wdl_port.specs.declared.fault.ReadFault.TheVariants.{NoMemory as ReadNoMemory};
ghost use Rattle.wdl_port.specs.declared.fault.LaunchFault.TheVariants.{NoMemory as LaunchNoMemory};
ghost use Rattle.wdl_port.specs.declared.fault.KeepFault.TheVariants.{NoMemory as KeepNoMemory};

use std::alloc::AllocError;
use thiserror::Error;
use wdl_value::NoMemory;

/// Why a shelf gave no file.
#[derive(Clone, Copy, Debug, PartialEq, Eq, Error)]
pub enum ReadFault {
    /// The file is not there or could not be read, and the shelf counted a fault.
    #[error("the file could not be read")]
    Failed,
    #[error("out of memory")]
    NoMemory,
}

impl From<AllocError> for ReadFault {
    ghost from_gives = { λ _ e. e ≡ ReadNoMemory };

    fn from(_e: AllocError) -> ReadFault {
        ReadFault::NoMemory
    }
}

/// A write failed: the sink counted a fault, and nothing was appended.
#[derive(Clone, Copy, Debug, PartialEq, Eq, Error)]
#[error("the text could not be written")]
pub struct WriteFault;

/// Why a launcher gave no answer.
#[derive(Clone, Copy, Debug, PartialEq, Eq, Error)]
pub enum LaunchFault {
    /// The launcher refuses the request.
    #[error("the job could not be started")]
    Refused,
    #[error("out of memory")]
    NoMemory,
}

impl From<NoMemory> for LaunchFault {
    ghost from_gives = { λ _ e. e ≡ LaunchNoMemory };

    fn from(_e: NoMemory) -> LaunchFault {
        LaunchFault::NoMemory
    }
}

/// Why a call of a keeper failed.
#[derive(Clone, Copy, Debug, PartialEq, Eq, Error)]
pub enum KeepFault {
    /// The keeper counted a fault.
    #[error("the journal could not be read or written")]
    Failed,
    #[error("out of memory")]
    NoMemory,
}

impl From<NoMemory> for KeepFault {
    ghost from_gives = { λ _ e. e ≡ KeepNoMemory };

    fn from(_e: NoMemory) -> KeepFault {
        KeepFault::NoMemory
    }
}
