ghost use Rattle.std.specs.Prelude.{◌≡◌, Ok};
ghost use Rattle.wdl_eval.specs.Meets.{Lends};
ghost use Rattle.wdl_eval.specs.Nodes.{within};

use crate::fault::NodeFault;
use std::marker::Model;
use wdl_value::{EvalCode, Value, is_within_limits};

/// A value, with whether it keeps the limits of values, which is found out once.
#[derive(Drop)]
pub struct Measured {
    value: Value,
    is_within: bool,
}

impl Model for Measured {
    ghost use Rattle.std.specs.Prelude.{◌≡◌};
    ghost use Rattle.wdl_value.specs.declared.value.Value.{Value as Kept};
    ghost use Rattle.wdl_value.specs.Limits as limits;

    ghost Value = { Kept };

    ghost use Rattle.std.specs.Coded.{codes};
    ghost use Rattle.wdl_value.specs.contracts.value.Value as kept;

    ghost coded = { Prim.hlevel (codes, kept.the_row.coded) };

    ghost view = { λ m. m.value };

    ghost invariant = { λ m. m.is_within ≡ limits.is_within m.value };
}

impl Measured {
    /// A value, measured once, in time linear in its size.
    pub fn new(value: Value) -> Measured
        ensures { result ≡ value }
    {
        let is_within = is_within_limits(&value);
        Measured { value, is_within }
    }

    /// The value.
    pub fn get(&self) -> &Value
        ensures { result.now ≡ self.now }
    {
        &self.value
    }

    /// The value, where it keeps the limits of values, else code 510. Nothing is measured.
    pub fn offered(&self) -> Result<&Value, NodeFault>
        ensures { Lends (within (Ok self.now)) result }
    {
        if self.is_within {
            return Ok(&self.value);
        }
        Err(NodeFault::Code(EvalCode::TooLarge))
    }
}
