ghost use Rattle.std.specs.Prelude.{◌≡◌, ◌↔◌};
ghost use Rattle.job_launcher.specs.declared.trouble.Trouble.TheVariants.{NoMemory as OutOfMemory};
ghost use Rattle.wdl_port.specs.declared.fault.LaunchFault.TheVariants.{NoMemory as LaunchNoMemory};

use crate::refusal::{Refusal, Step};
use std::alloc::{AllocError, AllocFailed};
use std::io;
use std::io::ErrorKind;
use thiserror::Error;
use wdl_port::LaunchFault;
use wdl_value::NoMemory;

/// Why a launch failed.
#[derive(Clone, Copy, Debug, Error)]
pub(crate) enum Trouble {
    #[error("the launch is refused")]
    Refused(Refusal),
    #[error("out of memory")]
    NoMemory,
}

/// Returns what a call on a path gave, or `None` where nothing is at that path.
pub(crate) fn if_there<T>(given: io::Result<T>) -> Result<Option<T>, Trouble> {
    match given {
        Ok(it) => Ok(Some(it)),
        Err(e) if e.kind() == ErrorKind::NotFound => Ok(None),
        Err(e) => Err(Trouble::from(e)),
    }
}

/// Returns what was given; where the system refused something, with the step at which it did.
pub(crate) fn at<T>(step: Step, given: Result<T, Trouble>) -> Result<T, Trouble> {
    match given {
        Err(Trouble::Refused(Refusal::System(_, kind))) => {
            Err(Trouble::Refused(Refusal::System(step, kind)))
        }
        other => other,
    }
}

impl From<io::Error> for Trouble {
    fn from(e: io::Error) -> Trouble {
        match e.kind() {
            ErrorKind::OutOfMemory => Trouble::NoMemory,
            ErrorKind::ArgumentListTooLong => Trouble::Refused(Refusal::TooLong),
            kind => Trouble::Refused(Refusal::System(Step::Directory, kind)),
        }
    }
}

impl From<NoMemory> for Trouble {
    ghost from_gives = { λ _ t. t ≡ OutOfMemory };

    fn from(_e: NoMemory) -> Trouble {
        Trouble::NoMemory
    }
}

impl From<AllocError> for Trouble {
    ghost from_gives = { λ _ t. t ≡ OutOfMemory };

    fn from(_e: AllocError) -> Trouble {
        Trouble::NoMemory
    }
}

impl<T: Drop> From<AllocFailed<T>> for Trouble {
    ghost from_gives = { λ _ t. t ≡ OutOfMemory };

    fn from(_e: AllocFailed<T>) -> Trouble {
        Trouble::NoMemory
    }
}

impl From<Trouble> for LaunchFault {
    ghost from_gives = { λ e t. (t ≡ LaunchNoMemory) ↔ (e ≡ OutOfMemory) };

    fn from(e: Trouble) -> LaunchFault {
        match e {
            Trouble::Refused(_) => LaunchFault::Refused,
            Trouble::NoMemory => LaunchFault::NoMemory,
        }
    }
}
