ghost use Rattle.std.specs.Prelude.{IfOk, IsErrOf};
ghost use Rattle.wdl_base.specs.declared.answer.Answer.{Answer as Given};
ghost use Rattle.wdl_base.specs.declared.request.Request.{Request as AskedOf};

use crate::fault::LaunchFault;
use std::alloc::Global;
use wdl_value::{Answer, Request};

/// What runs commands. Workers share it, so its meanings are relations on requests.
pub trait Launcher {
    /// The answers that it gives for a request.
    ghost gives: { Self → AskedOf → Given → Type 0 };

    /// The requests that it may refuse.
    ghost refuses: { Self → AskedOf → Type 0 };

    /// Runs the command of the request, and waits for its end.
    fn launch(&self, alloc: Global, request: &Request) -> Result<Answer, LaunchFault>
        ensures given { IfOk result (gives self.now request.now) }
        ensures refused { IsErrOf result LaunchFault.Refused → refuses self.now request.now };
}
