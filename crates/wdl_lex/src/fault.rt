ghost use Rattle.std.specs.Prelude.{◌≡◌};
ghost use Rattle.wdl_lex.specs.Reading.Code as reading;

use std::alloc::{AllocError, AllocFailed};
use thiserror::Error;
use wdl_value::Span;

/// Why a text has no tokens.
///
/// `Bad` has the code and where it holds: 101 not UTF-8, 102 a character with which no token begins
/// (NUL everywhere) or a number directly followed by a letter, a digit or `_`, 103 a newline or the
/// end of the text in a string, 104 the end of the text in a command, 105 an escape that is none,
/// 106 an integer past 9223372036854775807, 107 a document of more than 1,048,576 bytes or a word
/// of more than 128.
#[derive(Clone, Copy, Debug, PartialEq, Eq, Error)]
pub enum LexFault {
    #[error("out of memory")]
    NoMemory,
    #[error("error {code}")]
    Bad { code: u16, span: Span },
}

impl From<AllocError> for LexFault {
    ghost use Rattle.std.specs.Prelude.{◌≡◌};
    ghost use Rattle.wdl_lex.specs.declared.fault.LexFault.TheVariants.{NoMemory as OutOfMemory};

    ghost from_gives = { λ _ e. e ≡ OutOfMemory };

    fn from(_error: AllocError) -> LexFault {
        LexFault::NoMemory
    }
}

/// What is wrong at the front of a text: the code, and from where to where, in bytes from that
/// front.
#[derive(Clone, Copy, Debug, PartialEq, Eq)]
pub struct Flaw {
    pub code: u16,
    pub start: usize,
    pub end: usize,
}

/// Why no token was read.
#[derive(Clone, Copy, Debug, PartialEq, Eq, Error)]
pub enum NoToken {
    #[error("out of memory")]
    NoMemory,
    #[error("no token stands there")]
    Flaw(Flaw),
}

impl From<AllocError> for NoToken {
    ghost use Rattle.std.specs.Prelude.{◌≡◌};
    ghost use Rattle.wdl_lex.specs.declared.fault.NoToken.TheVariants.{NoMemory as OutOfMemory};

    ghost from_gives = { λ _ e. e ≡ OutOfMemory };

    fn from(_error: AllocError) -> NoToken {
        NoToken::NoMemory
    }
}

impl<T: Drop> From<AllocFailed<T>> for NoToken {
    ghost use Rattle.std.specs.Prelude.{◌≡◌};
    ghost use Rattle.wdl_lex.specs.declared.fault.NoToken.TheVariants.{NoMemory as OutOfMemory};

    ghost from_gives = { λ _ e. e ≡ OutOfMemory };

    fn from(_error: AllocFailed<T>) -> NoToken {
        NoToken::NoMemory
    }
}

/// A flaw of the first `end` bytes.
pub fn flawed(code: u16, end: usize) -> NoToken
    ensures { result ≡ reading.flawed code end }
{
    NoToken::Flaw(Flaw {
        code,
        start: 0,
        end,
    })
}
