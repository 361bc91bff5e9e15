ghost use Rattle.std.specs.Prelude.{◌≡◌, IfOk, map};
ghost use Rattle.cwl_image.specs.Image as image;

use crate::literals::literal_of;
use crate::types::cwl_type;
use cwl_model::CwlIn;
use std::alloc::Global;
use wdl_typed::{TExpr, TInput};
use wdl_value::{Items, NoMemory, Value};

fn preset_of(alloc: Global, value: &Option<TExpr>) -> Result<Option<Value>, NoMemory>
    ensures { IfOk result (λ p. p ≡ image.preset_of value.now) }
{
    match value {
        Some(expr) => Ok(Some(literal_of(alloc, expr)?)),
        None => Ok(None),
    }
}

/// An input of a process.
pub fn input_of(alloc: Global, input: &TInput) -> Result<CwlIn, NoMemory>
    ensures { IfOk result (λ i. i ≡ image.cwl_in input.now) }
{
    let id = input.name.to_text(alloc)?;
    let ty = cwl_type(alloc, &input.ty)?;
    let preset = preset_of(alloc, &input.value)?;
    Ok(CwlIn { id, ty, preset })
}

/// The inputs of a process, with their types and with the values of their defaults.
pub fn inputs_of(alloc: Global, inputs: &[TInput]) -> Result<Items<CwlIn>, NoMemory>
    ensures { IfOk result (λ is. is ≡ map image.cwl_in inputs.now) }
{
    let mut all = Items::new(alloc);
    for input in inputs {
        all.push(input_of(alloc, input)?)?;
    }
    Ok(all)
}
