ghost use Rattle.std.specs.Prelude.{◌≡◌};
ghost use Rattle.wdl_base.specs.declared.error.TextFault.TheVariants.{NoMemory as TextNoMemory};
ghost use Rattle.wdl_base.specs.declared.error.NameFault.TheVariants.{NoMemory as NameNoMemory};

use std::alloc::{AllocError, AllocFailed};
use thiserror::Error;

/// An allocation failed.
#[derive(Clone, Copy, Debug, PartialEq, Eq, Error)]
#[error("out of memory")]
pub struct NoMemory;

impl From<AllocError> for NoMemory {
    fn from(_e: AllocError) -> NoMemory {
        NoMemory
    }
}

impl<T: Drop> From<AllocFailed<T>> for NoMemory {
    fn from(_e: AllocFailed<T>) -> NoMemory {
        NoMemory
    }
}

/// Why a string is no `Text`.
#[derive(Clone, Copy, Debug, PartialEq, Eq, Error)]
pub enum TextFault {
    /// It holds the character NUL.
    #[error("the text holds the character NUL")]
    Nul,
    #[error("out of memory")]
    NoMemory,
}

impl From<AllocError> for TextFault {
    ghost from_gives = { λ _ e. e ≡ TextNoMemory };

    fn from(_e: AllocError) -> TextFault {
        TextFault::NoMemory
    }
}

/// Why a string is no `Name`.
#[derive(Clone, Copy, Debug, PartialEq, Eq, Error)]
pub enum NameFault {
    /// It is no identifier of at most 128 bytes, or it is a reserved word.
    #[error("not an identifier of at most 128 bytes, or a reserved word")]
    NotAName,
    #[error("out of memory")]
    NoMemory,
}

impl From<AllocError> for NameFault {
    ghost from_gives = { λ _ e. e ≡ NameNoMemory };

    fn from(_e: AllocError) -> NameFault {
        NameFault::NoMemory
    }
}

/// Why a status, two outputs and a list of files are no `Answer`: a limit is passed, or the names
/// of the files are not relative, distinct and in byte order.
#[derive(Clone, Copy, Debug, PartialEq, Eq, Error)]
pub enum AnswerFault {
    #[error("the answer passes a limit, or its files are not relative, distinct and in byte order")]
    NotAnAnswer,
}
