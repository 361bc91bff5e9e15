ghost use Rattle.std.specs.Prelude.{
  ◌≡◌,
  ◌++◌,
  ◌∷◌,
  [],
  ◌&&◌,
  true,
  false,
  Some,
  None,
  length,
  if◌then◌else◌,
  IfOk,
  OnOk,
  IsErrOf,
};
ghost use Rattle.std.specs.List.{flat_map, join_by, list_all};
ghost use Rattle.wdl_value.specs.Parts.{items_in as cells_in};
ghost use Rattle.wdl_value.specs.ValueText.{text_of as text_in};
ghost use Rattle.wdl_value.specs.Written as spec;
ghost use Rattle.wdl_files.specs.declared.fault.WrittenFault.TheVariants.{TooLarge};

use crate::fault::WrittenFault;
use std::alloc::Global;
use wdl_stdlib::{items_in, rows_in, text_in};
use wdl_value::{Func, MapRow, NoMemory, Text, Value};

/// The most bytes of a text in a written file.
pub const TEXT_BYTES: usize = 65_536;

/// The most bytes of a written file, and of all that are written for one request.
pub const WRITTEN_BYTES: usize = 4_194_304;

/// The text with that of a value behind it. It is `None` where the latter has more than 65,536
/// bytes.
fn with_value(alloc: Global, mut text: Text, value: &Value) -> Result<Option<Text>, NoMemory>
    ensures { IfOk result (λ t. t ≡ (if spec.is_short_text value.now then Some (text ++ text_in value.now) else None)) }
{
    let more = text_in(alloc, value)?;
    if more.as_str().len() > TEXT_BYTES {
        return Ok(None);
    }
    text.push_str(more.as_str())?;
    Ok(Some(text))
}

fn lines(alloc: Global, items: &[Value]) -> Result<Option<Text>, NoMemory>
    ensures { IfOk result (λ t. t ≡ (if list_all spec.is_short_text items.now then Some (flat_map spec.text_line items.now) else None)) }
{
    let mut text = Text::empty(alloc);
    for item in items {
        let Some(more) = with_value(alloc, text, item)? else {
            return Ok(None);
        };
        text = more;
        text.push_ascii(b'\n')?;
    }
    Ok(Some(text))
}

fn with_cells(alloc: Global, text: Text, cells: &[Value]) -> Result<Option<Text>, NoMemory>
    ensures { IfOk result (λ t. t ≡ (if list_all spec.is_short_text cells.now then Some (text ++ join_by text_in (9 ∷ []) cells.now) else None)) }
{
    let [first, rest @ ..] = cells else {
        return Ok(Some(text));
    };
    let Some(mut text) = with_value(alloc, text, first)? else {
        return Ok(None);
    };
    for cell in rest {
        text.push_ascii(b'\t')?;
        let Some(more) = with_value(alloc, text, cell)? else {
            return Ok(None);
        };
        text = more;
    }
    Ok(Some(text))
}

fn rows(alloc: Global, rows: &[Value]) -> Result<Option<Text>, NoMemory>
    ensures { IfOk result (λ t. t ≡ (if list_all (λ row. list_all spec.is_short_text (cells_in row)) rows.now then Some (flat_map spec.cells_line rows.now) else None)) }
{
    let mut text = Text::empty(alloc);
    for row in rows {
        let Some(more) = with_cells(alloc, text, items_in(row))? else {
            return Ok(None);
        };
        text = more;
        text.push_ascii(b'\n')?;
    }
    Ok(Some(text))
}

fn with_entry(alloc: Global, text: Text, row: &MapRow<Value>) -> Result<Option<Text>, NoMemory>
    ensures { IfOk result (λ t. t ≡ (if spec.short_row row.now then Some (text ++ spec.entry_line row.now) else None)) }
{
    let Some(mut text) = with_value(alloc, text, &row.key)? else {
        return Ok(None);
    };
    text.push_ascii(b'\t')?;
    let Some(mut text) = with_value(alloc, text, &row.value)? else {
        return Ok(None);
    };
    text.push_ascii(b'\n')?;
    Ok(Some(text))
}

fn entries(alloc: Global, rows: &[MapRow<Value>]) -> Result<Option<Text>, NoMemory>
    ensures { IfOk result (λ t. t ≡ (if list_all spec.short_row rows.now then Some (flat_map spec.entry_line rows.now) else None)) }
{
    let mut text = Text::empty(alloc);
    for row in rows {
        let Some(more) = with_entry(alloc, text, row)? else {
            return Ok(None);
        };
        text = more;
    }
    Ok(Some(text))
}

/// What is written. It is `None` where one of its texts has more than 65,536 bytes.
fn written(alloc: Global, f: Func, v: &Value) -> Result<Option<Text>, NoMemory>
    ensures { IfOk result (λ t. t ≡ (if spec.short_texts f v.now then Some (spec.written f v.now) else None)) }
{
    match f {
        Func::WriteLines => lines(alloc, items_in(v)),
        Func::WriteTsv => rows(alloc, items_in(v)),
        Func::WriteMap => entries(alloc, rows_in(v)),
        _ => Ok(Some(Text::empty(alloc))),
    }
}

/// What a function that writes a file writes for a value that fits its argument's type:
/// `write_lines` each text and a newline, `write_tsv` each row's texts joined by tabs and a
/// newline, `write_map` each key, a tab, its value and a newline. It is refused as `TooLarge`
/// exactly where one of these texts has more than 65,536 bytes, or all that is written more than
/// 4,194,304. Its time is linear in the value.
pub fn written_text(alloc: Global, f: Func, v: &Value) -> Result<Text, WrittenFault>
    ensures value { IfOk result (λ t. t ≡ spec.written f v.now) }
    ensures within { OnOk result (spec.short_texts f v.now && spec.written_within (length (spec.written f v.now)) ≡ true) }
    ensures too_large { IsErrOf result TooLarge → spec.short_texts f v.now && spec.written_within (length (spec.written f v.now)) ≡ false }
{
    let Some(text) = written(alloc, f, v)? else {
        return Err(WrittenFault::TooLarge);
    };
    if text.as_str().len() > WRITTEN_BYTES {
        return Err(WrittenFault::TooLarge);
    }
    Ok(text)
}
