ghost use Rattle.std.specs.Prelude.{◌≡◌, false};
ghost use Rattle.wdl_base.specs.Plain.{has_nul};
ghost use Rattle.wdl_task.specs.Tells.{Failed, IsNamed};
ghost use Rattle.wdl_task.specs.declared.fault.CallFault.TheVariants.{NoMemory as OutOfMemory};

use std::alloc::{AllocError, Global};
use thiserror::Error;
use wdl_eval::EvalFault;
use wdl_value::{NoMemory, Text, Why};

/// Why a call gives nothing: the name of the input, declaration or output that has no value (or
/// `returnCodes`, `maxRetries`, `command` or `status`) with the cause, or want of memory.
#[derive(Debug, Drop, Error)]
pub enum CallFault {
    #[error("a declaration of the task has no value")]
    Bad { name: Text, why: Why },
    #[error("out of memory")]
    NoMemory,
}

impl From<NoMemory> for CallFault {
    ghost from_gives = { λ _ e. e ≡ OutOfMemory };

    fn from(_e: NoMemory) -> CallFault {
        CallFault::NoMemory
    }
}

impl From<AllocError> for CallFault {
    ghost from_gives = { λ _ e. e ≡ OutOfMemory };

    fn from(_e: AllocError) -> CallFault {
        CallFault::NoMemory
    }
}

/// A failure under a name that holds no NUL.
pub fn bad(alloc: Global, name: &str, why: Why) -> CallFault
    requires { has_nul name.now ≡ false }
    ensures { Failed name.now why result }
{
    match Text::from_plain(alloc, name) {
        Ok(name) => CallFault::Bad { name, why },
        Err(_) => CallFault::NoMemory,
    }
}

/// The value, or its code under a name that holds no NUL.
pub fn named<T: Drop>(
    alloc: Global,
    name: &str,
    outcome: Result<T, EvalFault>,
) -> Result<T, CallFault>
    requires { has_nul name.now ≡ false }
    ensures { IsNamed name.now outcome result }
{
    match outcome {
        Ok(value) => Ok(value),
        Err(EvalFault::Code(code)) => Err(bad(alloc, name, Why::Code(code))),
        Err(EvalFault::NoMemory) => Err(CallFault::NoMemory),
    }
}
