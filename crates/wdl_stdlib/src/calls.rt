//! The values of functions, by the number of their arguments.

ghost use Rattle.std.specs.Option.{option_copied};
ghost use Rattle.wdl_value.specs.Apply as spec;
ghost use Rattle.wdl_value.specs.Files as files;
ghost use Rattle.wdl_value.specs.ValueText.{text_of};
ghost use Rattle.wdl_stdlib.specs.Gives.{Gives, Makes};

use crate::fault::EvalFault;
use crate::files::file_text;
use crate::lists::{cross, flatten, transpose, unzip, zip};
use crate::maps::{as_map, as_pairs, collect_by_key, keys};
use crate::numbers::{greatest, least, length, range};
use crate::optional::{is_defined, select_all, select_first};
use crate::parts::text_in;
use crate::paths::{basename, basename_without, stderr, stdout};
use crate::reads::{read_boolean, read_int, read_lines, read_map, read_string, read_tsv};
use crate::texts::{prefix, quote, sep, suffix};
use crate::wildcard::glob;
use crate::within::limited;
use std::alloc::Global;
use wdl_value::{Answer, Func, Text, Value};

/// The text of the file that a value names.
fn text_at(
    alloc: Global,
    dir: &Text,
    answer: Option<&Answer>,
    path: &Value,
) -> Result<Text, EvalFault>
    ensures { Gives (files.file_text dir.now (option_copied answer.entry) (text_of path.now)) result }
{
    file_text(alloc, dir, answer, &text_in(alloc, path)?)
}

fn applied_to_none(alloc: Global, f: Func, dir: &Text) -> Result<Value, EvalFault>
    ensures { Makes (spec.applied_to_none dir.now f) result }
{
    match f {
        Func::Stdout => stdout(alloc, dir),
        Func::Stderr => stderr(alloc, dir),
        _ => Ok(Value::Absent),
    }
}

/// The functions that read files.
fn read(
    alloc: Global,
    f: Func,
    dir: &Text,
    answer: Option<&Answer>,
    x: &Value,
) -> Result<Value, EvalFault>
    ensures { Gives (spec.read_by dir.now (option_copied answer.entry) f x.now) result }
{
    let text = text_at(alloc, dir, answer, x)?;
    match f {
        Func::ReadString => read_string(alloc, &text),
        Func::ReadLines => read_lines(alloc, &text),
        Func::ReadInt => read_int(&text),
        Func::ReadBoolean => read_boolean(&text),
        Func::ReadTsv => read_tsv(alloc, &text),
        Func::ReadMap => read_map(alloc, &text),
        _ => Ok(Value::Absent),
    }
}

fn applied_to_one(
    alloc: Global,
    f: Func,
    dir: &Text,
    answer: Option<&Answer>,
    x: &Value,
) -> Result<Value, EvalFault>
    ensures { Makes (spec.applied_to_one dir.now (option_copied answer.entry) f x.now) result }
{
    match f {
        Func::Length => length(x),
        Func::Range => range(alloc, x),
        Func::Transpose => transpose(alloc, x),
        Func::Unzip => unzip(alloc, x),
        Func::Flatten => flatten(alloc, x),
        Func::Quote => quote(alloc, b'"', x),
        Func::Squote => quote(alloc, b'\'', x),
        Func::AsPairs => as_pairs(alloc, x),
        Func::AsMap => as_map(alloc, x),
        Func::Keys => keys(alloc, x),
        Func::CollectByKey => collect_by_key(alloc, x),
        Func::Defined => Ok(Value::Bool(is_defined(x))),
        Func::SelectFirst => select_first(alloc, x),
        Func::SelectAll => select_all(alloc, x),
        Func::Basename => basename(alloc, x),
        Func::Glob => glob(alloc, dir, answer, x),
        Func::ReadString
        | Func::ReadLines
        | Func::ReadInt
        | Func::ReadBoolean
        | Func::ReadTsv
        | Func::ReadMap => read(alloc, f, dir, answer, x),
        _ => Ok(Value::Absent),
    }
}

fn applied_to_two(alloc: Global, f: Func, x: &Value, y: &Value) -> Result<Value, EvalFault>
    ensures { Makes (spec.applied_to_two f x.now y.now) result }
{
    match f {
        Func::Min => least(x, y),
        Func::Max => greatest(x, y),
        Func::Cross => cross(alloc, x, y),
        Func::Zip => zip(alloc, x, y),
        Func::Prefix => prefix(alloc, x, y),
        Func::Suffix => suffix(alloc, x, y),
        Func::Sep => sep(alloc, x, y),
        Func::Basename => basename_without(alloc, x, y),
        _ => Ok(Value::Absent),
    }
}

fn applied(
    alloc: Global,
    f: Func,
    args: &[Value],
    dir: &Text,
    answer: Option<&Answer>,
) -> Result<Value, EvalFault>
    ensures { Makes (spec.applied dir.now (option_copied answer.entry) f args.now) result }
{
    match args {
        [] => applied_to_none(alloc, f, dir),
        [x] => applied_to_one(alloc, f, dir, answer, x),
        [x, y] => applied_to_two(alloc, f, x, y),
        _ => Ok(Value::Absent),
    }
}

/// The value of a function of the standard library for arguments that fit a row of the table of
/// functions; no function that writes files. `dir` is the directory of the job and `answer` what
/// its command left: without an answer no file is there. A code is that of the function, or 510
/// where the value passes a limit.
pub fn apply(
    alloc: Global,
    f: Func,
    args: &[Value],
    dir: &Text,
    answer: Option<&Answer>,
) -> Result<Value, EvalFault>
    ensures value { Gives (spec.apply dir.now (option_copied answer.entry) f args.now) result }
{
    limited(applied(alloc, f, args, dir, answer)?)
}
