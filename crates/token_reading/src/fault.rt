//! Why reading stopped.

ghost use Rattle.std.specs.Prelude.{◌≡◌};
ghost use Rattle.token_reading.specs.declared.fault.RuleStop.TheVariants.{NoMemory as StopNoMemory};

use std::alloc::AllocError;
use thiserror::Error;
use wdl_value::{NoMemory, Span};

/// Why no tree was given. The codes are 110 (no such tree starts there), 111 (reading met the limit
/// of depth), and those of forms that are left out: 120 (fractions, `Float`, and the functions that
/// give one), 121 (`Object`, `object` and their functions), 122 (`sub`), 123 (`read_json`,
/// `write_json`).
#[derive(Clone, Copy, Debug, PartialEq, Eq, Error)]
pub enum ParseFault {
    #[error("error {code}")]
    Bad { code: u16, span: Span },
    #[error("out of memory")]
    NoMemory,
}

/// A code, and the token that it is said of.
#[derive(Clone, Copy, Debug, PartialEq, Eq)]
pub struct Fault {
    pub code: u16,
    pub span: Span,
}

/// Why nothing was read.
#[derive(Clone, Copy, Debug, PartialEq, Eq)]
pub enum Refusal {
    /// Nothing of the kind starts there, and a rule may try something else.
    Missing,
    /// Reading met the limit of depth or a form that is left out, and goes no further.
    Bad(Fault),
}

/// Why a rule stopped.
#[derive(Clone, Copy, Debug, PartialEq, Eq, Error)]
pub enum RuleStop {
    #[error("out of memory")]
    NoMemory,
    #[error("the text does not fit the rule")]
    Refused(Refusal),
}

impl From<AllocError> for RuleStop {
    ghost from_gives = { λ _ s. s ≡ StopNoMemory };

    fn from(_error: AllocError) -> RuleStop {
        RuleStop::NoMemory
    }
}

impl From<NoMemory> for RuleStop {
    ghost from_gives = { λ _ s. s ≡ StopNoMemory };

    fn from(_error: NoMemory) -> RuleStop {
        RuleStop::NoMemory
    }
}
