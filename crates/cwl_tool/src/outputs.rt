ghost use Rattle.std.specs.Prelude.{◌≡◌, IfOk, map};
ghost use Rattle.std.specs.Option.{option_copied};
ghost use Rattle.cwl_image.specs.Image as image;
ghost use Rattle.cwl_tool.specs.Origins.{file_name as name_in, text_in as str_in};

use cwl_model::{Origin, ToolOut};
use std::alloc::Global;
use wdl_typed::{TDecl, TExpr};
use wdl_value::{Items, NoMemory, Text, Value};

fn text_in(value: &Value) -> Option<&Text>
    ensures { option_copied result ≡ str_in value.now }
{
    match value {
        Value::Str(text) => Some(text),
        _ => None,
    }
}

/// The text of a string literal, casts aside.
fn file_name(expr: &TExpr) -> Option<&Text>
    ensures { option_copied result ≡ name_in expr.now }
{
    match expr {
        TExpr::Lit(value) => text_in(value),
        TExpr::Cast(inner, _) => file_name(inner.get()),
        _ => None,
    }
}

fn origin_of(alloc: Global, expr: &TExpr) -> Result<Origin, NoMemory>
    ensures { IfOk result (λ o. o ≡ image.origin_by (name_in expr.now)) }
{
    match file_name(expr) {
        Some(name) => Ok(Origin::Glob(name.copy(alloc)?)),
        None => Ok(Origin::Stdout),
    }
}

fn output_of(alloc: Global, output: &TDecl) -> Result<ToolOut, NoMemory>
    ensures { IfOk result (λ o. o ≡ image.tool_out output.now) }
{
    let id = output.name.to_text(alloc)?;
    let origin = origin_of(alloc, &output.value)?;
    Ok(ToolOut { id, origin })
}

/// The outputs of a task: the file of a name, or the standard output.
pub fn outputs_of(alloc: Global, outputs: &[TDecl]) -> Result<Items<ToolOut>, NoMemory>
    ensures { IfOk result (λ os. os ≡ map image.tool_out outputs.now) }
{
    let mut all = Items::new(alloc);
    for output in outputs {
        all.push(output_of(alloc, output)?)?;
    }
    Ok(all)
}
