//! The functions that read files (OpenWDL 1.1, "File Parsing"), by the text of the file.

ghost use Rattle.std.specs.Prelude.{◌≡◌, false, Ok};
ghost use Rattle.std.specs.Option.{option_copied};
ghost use Rattle.wdl_base.specs.Plain.{has_nul};
ghost use Rattle.wdl_value.specs.Reads as spec;
ghost use Rattle.wdl_stdlib.specs.Gives.{Gives};
ghost use Rattle.wdl_stdlib.specs.Trims.{CutsEnd};

use crate::fault::EvalFault;
use crate::maps::as_map;
use crate::pieces::{cells, lines, strings};
use std::alloc::Global;
use wdl_value::{Boxed, EvalCode, Items, Text, Value};

/// The text without the newline or the carriage return at its end.
fn without_line_end(text: &str) -> Option<&str>
    ensures { CutsEnd spec.ends_line text.now (option_copied result) }
{
    match text.strip_suffix('\n') {
        Some(rest) => Some(rest),
        None => text.strip_suffix('\r'),
    }
}

fn without_line_ends(text: &str) -> &str
    requires { has_nul text.now ≡ false }
    ensures value { result.now ≡ spec.trimmed_end spec.ends_line text.now }
    ensures plain { has_nul result.now ≡ false }
{
    let mut rest = text;
    while let Some(shorter) = without_line_end(rest) {
        rest = shorter;
    }
    rest
}

/// The text without the line ends at its end.
pub fn read_string(alloc: Global, text: &Text) -> Result<Value, EvalFault>
    ensures { Gives (spec.string_read text.now) result }
{
    Ok(Value::Str(Text::from_plain(alloc, without_line_ends(text.as_str()))?))
}

/// The lines of a text; a last line without a newline counts unless it is empty.
pub fn read_lines(alloc: Global, text: &Text) -> Result<Value, EvalFault>
    ensures { Gives (spec.lines_read text.now) result }
{
    let lines = lines(alloc, text)?;
    Ok(strings(alloc, lines.as_slice())?)
}

/// The lines of a text, each cut at its tabs.
pub fn read_tsv(alloc: Global, text: &Text) -> Result<Value, EvalFault>
    ensures { Gives (spec.tsv_read text.now) result }
{
    let lines = lines(alloc, text)?;
    let mut rows = Items::new(alloc);
    for line in lines.as_slice() {
        let cells = cells(alloc, line)?;
        rows.push(strings(alloc, cells.as_slice())?)?;
    }
    Ok(Value::List(rows))
}

fn is_blank(byte: u8) -> bool
    ensures { result ≡ spec.is_blank byte }
{
    matches!(byte, b' ' | b'\t' | b'\r' | b'\n')
}

fn trimmed_start(bytes: &[u8]) -> &[u8]
    ensures { result.now ≡ spec.trimmed_start spec.is_blank bytes.now }
{
    let mut rest = bytes;
    while let [first, more @ ..] = rest {
        if !is_blank(*first) {
            return rest;
        }
        rest = more;
    }
    rest
}

fn trimmed_end(bytes: &[u8]) -> &[u8]
    ensures { result.now ≡ spec.trimmed_end spec.is_blank bytes.now }
{
    let mut rest = bytes;
    while let [front @ .., last] = rest {
        if !is_blank(*last) {
            return rest;
        }
        rest = front;
    }
    rest
}

/// The bytes without blank space round them.
fn trimmed(bytes: &[u8]) -> &[u8]
    ensures { result.now ≡ spec.trimmed bytes.now }
{
    trimmed_end(trimmed_start(bytes))
}

/// An optional sign and decimal digits.
fn signed(bytes: &[u8]) -> Result<Value, EvalFault>
    ensures { Gives (spec.signed_read bytes.now) result }
{
    let Ok(numeral) = str::from_utf8(bytes) else {
        return Err(EvalFault::Code(EvalCode::NotAnInteger));
    };
    match numeral.parse::<i64>() {
        Ok(n) => Ok(Value::Int(n)),
        Err(_) => Err(EvalFault::Code(EvalCode::NotAnInteger)),
    }
}

/// The number with blank space round it; `NotAnInteger` where the text is none within 64 bits.
pub fn read_int(text: &Text) -> Result<Value, EvalFault>
    ensures { Gives (spec.int_read text.now) result }
{
    signed(trimmed(text.as_str().as_bytes()))
}

/// `true` or `false` in any case, with blank space round it; else `NotABoolean`.
pub fn read_boolean(text: &Text) -> Result<Value, EvalFault>
    ensures { Gives (spec.boolean_read text.now) result }
{
    let word = trimmed(text.as_str().as_bytes());
    if word.eq_ignore_ascii_case(b"true") {
        return Ok(Value::Bool(true));
    }
    if word.eq_ignore_ascii_case(b"false") {
        return Ok(Value::Bool(false));
    }
    Err(EvalFault::Code(EvalCode::NotABoolean))
}

fn pair_of(alloc: Global, cells: &[Text]) -> Result<Value, EvalFault>
    ensures { Gives (spec.pair_read cells.now) result }
{
    let [key, value] = cells else {
        return Err(EvalFault::Code(EvalCode::NotTwoColumns));
    };
    let key = Value::Str(key.copy(alloc)?);
    let value = Value::Str(value.copy(alloc)?);
    Ok(Value::Pair(Boxed::new(alloc, key)?, Boxed::new(alloc, value)?))
}

fn pairs_of(alloc: Global, lines: &[Text]) -> Result<Items<Value>, EvalFault>
    ensures { Gives (spec.pairs_read lines.now) result }
{
    let mut pairs = Items::new(alloc);
    for line in lines {
        let cells = cells(alloc, line)?;
        pairs.push(pair_of(alloc, cells.as_slice())?)?;
    }
    Ok(pairs)
}

/// The two columns of each line as the rows of a map; `NotTwoColumns`, or else `RepeatedKey`.
pub fn read_map(alloc: Global, text: &Text) -> Result<Value, EvalFault>
    ensures { Gives (spec.map_read text.now) result }
{
    let lines = lines(alloc, text)?;
    let pairs = Value::List(pairs_of(alloc, lines.as_slice())?);
    as_map(alloc, &pairs)
}
