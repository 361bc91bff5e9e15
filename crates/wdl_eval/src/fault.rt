ghost use Rattle.std.specs.Prelude.{◌≡◌};
ghost use Rattle.wdl_eval.specs.declared.fault.NodeFault.TheVariants.{NoMemory as OutOfMemory};

use std::alloc::AllocError;
use thiserror::Error;
use wdl_value::{EvalCode, NoMemory};

/// Why a node has no value: a code, a part of a wrong kind, which no well-typed expression has, or
/// want of memory.
#[derive(Clone, Copy, Debug, PartialEq, Eq, Error)]
pub enum NodeFault {
    #[error("the evaluation gives no value")]
    Code(EvalCode),
    #[error("a part has another type than its place")]
    Wrong,
    #[error("out of memory")]
    NoMemory,
}

impl From<NoMemory> for NodeFault {
    ghost from_gives = { λ _ e. e ≡ OutOfMemory };

    fn from(_e: NoMemory) -> NodeFault {
        NodeFault::NoMemory
    }
}

impl From<AllocError> for NodeFault {
    ghost from_gives = { λ _ e. e ≡ OutOfMemory };

    fn from(_e: AllocError) -> NodeFault {
        NodeFault::NoMemory
    }
}
