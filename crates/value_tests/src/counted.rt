ghost use Rattle.std.specs.Prelude.{◌≡◌, ◌+◌, ◌<◌, IsOk};

use std::alloc::Global;
use std::marker::Brand;
use std::sync::ledger::{Blank, Ledger};
use std::test::Fail;
use wdl_eval::{EvalFault, eval};
use wdl_typed::TExpr;
use wdl_value::{Boxed, Env, Items, Steps, Text, Value};

/// The value of `!b`, which is one step.
fn negation<L: Ledger>(alloc: Global, b: bool, steps: &mut Steps<L>) -> Result<Value, EvalFault>
    ensures one_step { IsOk result → steps.new ≡ steps.old + 1 }
{
    let literal = Boxed::new(alloc, TExpr::Lit(Value::Bool(b)))?;
    let e = Boxed::new(alloc, TExpr::Not(literal))?;
    let env: Env = Items::new(alloc);
    eval(alloc, e.get(), &env, &Text::empty(alloc), None, steps)
}

/// Whether `!true` is false, by a counter that is opened for it.
fn is_negated<L: Ledger>(alloc: Global, blank: Blank) -> Result<bool, EvalFault>
    requires name { blank.name ≡ L.name }
    requires parts { blank.parts ≡ L.parts }
    requires some { 0 < blank.parts }
{
    let mut steps: Steps<L> = Steps::start(blank);
    let value = negation(alloc, true, &mut steps)?;
    Ok(matches!(value, Value::Bool(false)))
}

fn is_negated_once(alloc: Global) -> bool {
    matches!(is_negated::<Brand>(alloc, Blank::new(1)), Ok(true))
}

#[test]
fn a_well_typed_expression_has_its_value_in_one_step(rt: HostRuntime) -> Result<(), Fail> {
    assert!(rt; is_negated_once(rt.alloc()));
    Ok(())
}
