ghost use Rattle.std.specs.Prelude.{◌≡◌};
ghost use Rattle.wdl_check_order.specs.Needs as spec;

use wdl_ast::{Argument, Call, ListItem};

/// The arguments of a call.
pub fn call_arguments(call: &Call) -> &[ListItem<Argument>]
    ensures { result.now ≡ spec.call_arguments call.now }
{
    let Some(body) = &call.body else {
        return &[];
    };
    match &body.inputs {
        Some(inputs) => inputs.arguments.as_slice(),
        None => &[],
    }
}
