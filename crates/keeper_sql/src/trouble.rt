ghost use Rattle.std.specs.Prelude.{◌≡◌, ◌↔◌};
ghost use Rattle.keeper_sql.specs.declared.trouble.Trouble.TheVariants.{NoMemory as OutOfMemory};
ghost use Rattle.run_keeper.specs.declared.error.RowFault.TheVariants.{NoMemory as RowNoMemory};
ghost use Rattle.sqlite.specs.declared.error.Error.TheVariants.{SqliteFailure};
ghost use Rattle.sqlite.specs.declared.error.ErrorCode.TheVariants.{OutOfMemory as SqliteNoMemory};

use crate::reason::{Reason, reason_of};
use run_keeper::RowFault;
use sqlite::{Error as SqliteError, ErrorCode};
use std::alloc::{AllocError, AllocFailed};
use thiserror::Error;
use wdl_value::NoMemory;

/// Why a step of the keeper failed.
#[derive(Clone, Copy, Debug, PartialEq, Eq, Error)]
pub enum Trouble {
    /// What the keeper counts as a fault: the file cannot be opened, read or written, or is no
    /// journal.
    #[error("the journal cannot be opened, read or written")]
    Failed(Reason),
    #[error("out of memory")]
    NoMemory,
}

impl From<SqliteError> for Trouble {
    ghost from_gives = { λ e t. (t ≡ OutOfMemory) ↔ (e ≡ SqliteFailure SqliteNoMemory) };

    fn from(e: SqliteError) -> Trouble {
        match e {
            SqliteError::SqliteFailure(ErrorCode::OutOfMemory) => Trouble::NoMemory,
            _ => Trouble::Failed(reason_of(e)),
        }
    }
}

impl From<RowFault> for Trouble {
    ghost from_gives = { λ e t. (t ≡ OutOfMemory) ↔ (e ≡ RowNoMemory) };

    fn from(e: RowFault) -> Trouble {
        match e {
            RowFault::NotARow => Trouble::Failed(Reason::OtherRow),
            RowFault::NoMemory => Trouble::NoMemory,
        }
    }
}

impl From<NoMemory> for Trouble {
    ghost from_gives = { λ _ t. t ≡ OutOfMemory };

    fn from(_e: NoMemory) -> Trouble {
        Trouble::NoMemory
    }
}

impl From<AllocError> for Trouble {
    ghost from_gives = { λ _ t. t ≡ OutOfMemory };

    fn from(_e: AllocError) -> Trouble {
        Trouble::NoMemory
    }
}

impl<T: Drop> From<AllocFailed<T>> for Trouble {
    ghost from_gives = { λ _ t. t ≡ OutOfMemory };

    fn from(_e: AllocFailed<T>) -> Trouble {
        Trouble::NoMemory
    }
}
