//! The files that a call's command left, as paths name them.

ghost use Rattle.std.specs.Prelude.{◌≡◌, Some};
ghost use Rattle.std.specs.Option.{option_copied};
ghost use Rattle.wdl_value.specs.Files as spec;
ghost use Rattle.wdl_stdlib.specs.Gives.{Gives};

use crate::fault::EvalFault;
use crate::file_names::local_name;
use std::alloc::Global;
use wdl_value::{Answer, Body, EvalCode, Seen, Text, TextFault};

fn seen_body<'a>(name: &str, files: &'a [Seen]) -> Option<&'a Body>
    ensures { option_copied result ≡ spec.seen_body name.now files.now }
{
    for file in files {
        if file.name.is(name) {
            return Some(&file.body);
        }
    }
    None
}

/// The body of a file that the command left, by its name: `_stdout` and `_stderr` are its two
/// streams. It is `None` where no such file is there.
pub fn left_body<'a>(answer: &'a Answer, name: &str) -> Option<&'a Body>
    ensures value { option_copied result ≡ spec.left_body answer.now name.now }
{
    if name == "_stdout" {
        return Some(&answer.out);
    }
    if name == "_stderr" {
        return Some(&answer.err);
    }
    seen_body(name, answer.files.as_slice())
}

/// The text of some bytes: they are UTF-8 without NUL.
fn bytes_text(alloc: Global, bytes: &[u8]) -> Result<Text, EvalFault>
    ensures { Gives (spec.bytes_text bytes.now) result }
{
    let Ok(text) = str::from_utf8(bytes) else {
        return Err(EvalFault::Code(EvalCode::NotText));
    };
    match Text::new(alloc, text) {
        Ok(text) => Ok(text),
        Err(TextFault::Nul) => Err(EvalFault::Code(EvalCode::NotText)),
        Err(TextFault::NoMemory) => Err(EvalFault::NoMemory),
    }
}

fn body_text(alloc: Global, body: &Body) -> Result<Text, EvalFault>
    ensures { Gives (spec.body_text (Some body.now)) result }
{
    match body {
        Body::Long => Err(EvalFault::Code(EvalCode::BodyLong)),
        Body::Bytes(bytes) => bytes_text(alloc, bytes.as_slice()),
    }
}

/// The text of a file by its name. A file that is not listed may be there where not all names were
/// kept.
fn left_text(alloc: Global, answer: &Answer, name: &str) -> Result<Text, EvalFault>
    ensures { Gives (spec.body_text (spec.or_cut answer.now (spec.left_body answer.now name.now))) result }
{
    match left_body(answer, name) {
        Some(body) => body_text(alloc, body),
        None if answer.is_cut() => Err(EvalFault::Code(EvalCode::BodyLong)),
        None => Err(EvalFault::Code(EvalCode::FileMissing)),
    }
}

/// The text of the file of a path: 511 where it is not there, as always without an answer, 516
/// where its body is long or its name may not have been kept, 512 where it is not UTF-8 or holds
/// NUL.
pub fn file_text(
    alloc: Global,
    dir: &Text,
    answer: Option<&Answer>,
    path: &Text,
) -> Result<Text, EvalFault>
    ensures value { Gives (spec.file_text dir.now (option_copied answer.entry) path.now) result }
{
    let Some(answer) = answer else {
        return Err(EvalFault::Code(EvalCode::FileMissing));
    };
    match local_name(alloc, dir, path)? {
        Some(name) => left_text(alloc, answer, name.as_str()),
        None => Err(EvalFault::Code(EvalCode::FileMissing)),
    }
}
