//! The lines and the cells of a text.

ghost use Rattle.std.specs.Prelude.{◌≡◌, IfOk, map};
ghost use Rattle.std.specs.Str.Lines.{lines as lines_of};
ghost use Rattle.wdl_value.specs.Reads as spec;
ghost use Rattle.wdl_value.specs.declared.value.Value.TheVariants as v;

use std::alloc::Global;
use wdl_value::{Items, NoMemory, Text, Value};

/// The lines of a text: each ends at a newline, and a carriage return before it goes; a last one
/// without a newline counts unless it is empty.
pub fn lines(alloc: Global, text: &Text) -> Result<Items<Text>, NoMemory>
    ensures { IfOk result (λ lines. lines ≡ lines_of text.now) }
{
    let text = text.as_str();
    let mut lines = Items::new(alloc);
    for line in text.lines() {
        lines.push(Text::from_plain(alloc, line)?)?;
    }
    Ok(lines)
}

/// The parts of a line between tabs.
pub fn cells(alloc: Global, line: &Text) -> Result<Items<Text>, NoMemory>
    ensures { IfOk result (λ cells. cells ≡ spec.cells line.now) }
{
    let line = line.as_str();
    let mut cells = Items::new(alloc);
    for cell in line.split('\t') {
        cells.push(Text::from_plain(alloc, cell)?)?;
    }
    Ok(cells)
}

/// The texts as values.
pub fn strings(alloc: Global, texts: &[Text]) -> Result<Value, NoMemory>
    ensures { IfOk result (λ x. x ≡ v.List (map v.Str texts.now)) }
{
    let mut values = Items::new(alloc);
    for text in texts {
        values.push(Value::Str(text.copy(alloc)?))?;
    }
    Ok(Value::List(values))
}
