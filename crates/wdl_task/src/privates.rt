//! Private declarations (OpenWDL 1.1, "Private Declarations").

ghost use Rattle.std.specs.Prelude.{◌≤◌, ◌+◌, ◌∷◌, [], length, IfOk};
ghost use Rattle.wdl_typed.specs.Requests as spec;
ghost use Rattle.wdl_task.specs.Calls.{AreLaid};
ghost use Rattle.wdl_task.specs.Readiness.{ArePrivatesReady, IsPlacedReady};
ghost use Rattle.wdl_task.specs.Views.{made_of, TellsAs};

use crate::binding::with_bind;
use crate::fault::{CallFault, named};
use crate::writes::{Laying, placed_value};
use std::alloc::Global;
use std::sync::ledger::Ledger;
use wdl_typed::TDecl;
use wdl_value::{Env, Items, Laid, Steps};

/// The values of names, and the files that are laid down so far.
#[derive(Drop)]
pub struct Made {
    pub env: Env,
    pub files: Items<Laid>,
}

fn with_private<L: Ledger>(
    alloc: Global,
    decl: &TDecl,
    made: Made,
    steps: &mut Steps<L>,
) -> Result<Made, CallFault>
    requires ready { IsPlacedReady decl.now.value made.env }
    requires laid { AreLaid made.files }
    ensures value { TellsAs made_of (spec.with_privates (decl.now ∷ []) (made_of made)) result }
    ensures laid { IfOk result (λ m. AreLaid m.files) }
    ensures steps { steps.new ≤ steps.old + 1 }
{
    let Made { env, files } = made;
    let outcome = placed_value(alloc, &decl.value, &env, files, steps);
    let Laying { value, files } = named(alloc, decl.name.as_str(), outcome)?;
    let env = with_bind(alloc, env, &decl.name, value)?;
    Ok(Made { env, files })
}

/// The names with each declaration, in their order.
pub fn with_privates<L: Ledger>(
    alloc: Global,
    decls: &[TDecl],
    mut made: Made,
    steps: &mut Steps<L>,
) -> Result<Made, CallFault>
    requires ready { ArePrivatesReady decls.now (made_of made) }
    requires laid { AreLaid made.files }
    ensures value { TellsAs made_of (spec.with_privates decls.now (made_of made)) result }
    ensures laid { IfOk result (λ m. AreLaid m.files) }
    ensures steps { steps.new ≤ steps.old + length decls.now }
{
    for decl in decls {
        made = with_private(alloc, decl, made, steps)?;
    }
    Ok(made)
}
