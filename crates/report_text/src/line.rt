ghost use Rattle.std.specs.Prelude.{
  ◌≡◌,
  ◌<◌,
  ◌++◌,
  false,
  [],
  decimal,
  length,
  slice_get,
  unwrap_or,
  Some,
  IfOk,
};
ghost use Rattle.wdl_base.specs.Plain.{has_nul};
ghost use Rattle.shown_text.specs.Shown.{shown};
ghost use Rattle.report_text.specs.Lines as spec;
ghost use Rattle.report_text.specs.Lines.{HasPath};
ghost use Rattle.report_text.specs.declared.status.Status.TheVariants as status;

use crate::code::{eval_text, word_of};
use crate::status::Status;
use shown_text::shown_of;
use std::alloc::Global;
use wdl_value::{Fault, Items, NoMemory, Place, Span, Text, Why, place_text};

/// A code, and its word behind a blank.
#[tactic(auto, using(crate::proofs::Plain::plain))]
fn coded(alloc: Global, code: u16, word: &str) -> Result<Text, NoMemory>
    requires { has_nul word.now ≡ false }
    ensures { IfOk result (λ t. t ≡ decimal code ++ spec.behind_blank word.now) }
{
    if word.is_empty() {
        Ok(Text::from_string(format!(in alloc; "{code}")?))
    } else {
        Ok(Text::from_string(format!(in alloc; "{code} {word}")?))
    }
}

/// The number of a code, and its word where it has one, as `301 UnknownName`.
pub fn code_text(alloc: Global, code: u16) -> Result<Text, NoMemory>
    ensures { IfOk result (λ t. t ≡ spec.code_text code) }
{
    coded(alloc, code, word_of(code))
}

/// The path of a document.
fn path_of(doc: u32, paths: &Items<Text>) -> &str
    requires { doc < length paths.now }
    ensures value { slice_get paths.now doc ≡ Some result.now }
    ensures plain { has_nul result.now ≡ false }
{
    paths.as_slice()[doc as usize].as_str()
}

/// The path of a document, with its control characters escaped.
fn shown_path(alloc: Global, doc: u32, paths: &Items<Text>) -> Result<Text, NoMemory>
    requires { doc < length paths.now }
    ensures { IfOk result (λ t. t ≡ shown (unwrap_or (slice_get paths.now doc) [])) }
{
    shown_of(alloc, path_of(doc, paths))
}

/// The path of a document, and the bytes of a part of it.
#[tactic(auto, using(crate::proofs::Plain::plain))]
fn span_text(alloc: Global, span: Span, paths: &Items<Text>) -> Result<Text, NoMemory>
    requires { span.doc < length paths.now }
    ensures { IfOk result (λ t. t ≡ spec.span_text paths.now span) }
{
    let path = shown_path(alloc, span.doc, paths)?;
    let path = path.as_str();
    let Span { start, end, .. } = span;
    Ok(Text::from_string(format!(in alloc; "{path}:{start}..{end}")?))
}

/// The line of `Status::Failed`: where the fault is, and why.
#[tactic(auto, using(crate::proofs::Plain::plain))]
fn failed_line(alloc: Global, fault: &Fault) -> Result<Text, NoMemory>
    ensures { IfOk result (λ t. t ≡ spec.line_of (status.Failed fault.now) []) }
{
    let place = place_text(alloc, &fault.place)?;
    let place = place.as_str();
    match fault.why {
        Why::Code(code) => {
            let name = shown_of(alloc, fault.name.as_str())?;
            let name = name.as_str();
            let code = eval_text(code);
            Ok(Text::from_string(format!(in alloc; "failed {place} {name}: {code}\n")?))
        }
        Why::Status(number) => {
            Ok(Text::from_string(format!(in alloc; "failed {place}: status {number}\n")?))
        }
    }
}

/// The line of `Status::Document`: the part of the document, and the code.
#[tactic(auto, using(crate::proofs::Plain::plain))]
fn document_line(
    alloc: Global,
    code: u16,
    span: Span,
    paths: &Items<Text>,
) -> Result<Text, NoMemory>
    requires { span.doc < length paths.now }
    ensures { IfOk result (λ t. t ≡ spec.line_of (status.Document code span) paths.now) }
{
    let span = span_text(alloc, span, paths)?;
    let span = span.as_str();
    let code = code_text(alloc, code)?;
    let code = code.as_str();
    Ok(Text::from_string(format!(in alloc; "{span}: {code}\n")?))
}

/// The line of `Status::Inputs`: the code, and the input where one is named.
#[tactic(auto, using(crate::proofs::Plain::plain))]
fn inputs_line(alloc: Global, code: u16, name: &Option<Text>) -> Result<Text, NoMemory>
    ensures { IfOk result (λ t. t ≡ spec.line_of (status.Inputs code name.now) []) }
{
    let code = code_text(alloc, code)?;
    let code = code.as_str();
    match name {
        None => Ok(Text::from_string(format!(in alloc; "inputs: {code}\n")?)),
        Some(name) => {
            let name = shown_of(alloc, name.as_str())?;
            let name = name.as_str();
            Ok(Text::from_string(format!(in alloc; "inputs: {code} {name}\n")?))
        }
    }
}

/// The line of `Status::Read`: the path of the file.
#[tactic(auto, using(crate::proofs::Plain::plain))]
fn read_line(alloc: Global, path: &Text) -> Result<Text, NoMemory>
    ensures { IfOk result (λ t. t ≡ spec.line_of (status.Read path.now) []) }
{
    let path = shown_of(alloc, path.as_str())?;
    let path = path.as_str();
    Ok(Text::from_string(format!(in alloc; "cannot read {path}\n")?))
}

/// The line of `Status::NotInSubset`: the rule, and the part of the document.
#[tactic(auto, using(crate::proofs::Plain::plain))]
fn subset_line(alloc: Global, rule: u16, span: Span, paths: &Items<Text>) -> Result<Text, NoMemory>
    requires { span.doc < length paths.now }
    ensures { IfOk result (λ t. t ≡ spec.line_of (status.NotInSubset rule span) paths.now) }
{
    let span = span_text(alloc, span, paths)?;
    let span = span.as_str();
    Ok(Text::from_string(format!(in alloc; "not in the subset: {rule} at {span}\n")?))
}

/// The line of `Status::Launch`: the place of the call.
#[tactic(auto, using(crate::proofs::Plain::plain))]
fn launch_line(alloc: Global, place: &Place) -> Result<Text, NoMemory>
    ensures { IfOk result (λ t. t ≡ spec.line_of (status.Launch place.now) []) }
{
    let place = place_text(alloc, place)?;
    let place = place.as_str();
    Ok(Text::from_string(format!(in alloc; "cannot launch {place}\n")?))
}

/// The line of `Status::Write`. It takes no memory.
pub fn write_line() -> &'static str
    ensures value { result.now ≡ spec.line_of status.Write [] }
{
    "cannot write\n"
}

/// The line of `Status::NoMemory`. It takes no memory.
pub fn no_memory_line() -> &'static str
    ensures value { result.now ≡ spec.line_of status.NoMemory [] }
{
    "no memory\n"
}

/// The line that a status writes on the error stream, with its newline: none
/// for `Ok`. The paths are those of the documents, by their numbers; each span's
/// document has one. Control characters in paths and names are escaped.
pub fn line_of(alloc: Global, status: &Status, paths: &Items<Text>) -> Result<Text, NoMemory>
    requires { HasPath status.now paths.now }
    ensures value { IfOk result (λ t. t ≡ spec.line_of status.now paths.now) }
{
    match status {
        Status::Ok => Ok(Text::empty(alloc)),
        Status::Failed(fault) => failed_line(alloc, fault),
        Status::Usage => Text::from_plain(
            alloc,
            "usage: wdl run [--inputs FILE] [--workers N] [--root DIR] [--journal FILE] FILE \
             | check FILE | inputs FILE | cwl [--inputs FILE] FILE | load N | bundle FILE\n",
        ),
        Status::Document(code, span) => document_line(alloc, *code, *span, paths),
        Status::Inputs(code, name) => inputs_line(alloc, *code, name),
        Status::Read(path) => read_line(alloc, path),
        Status::Write => Text::from_plain(alloc, "cannot write\n"),
        Status::NoMemory => Text::from_plain(alloc, "no memory\n"),
        Status::NotInSubset(rule, span) => subset_line(alloc, *rule, *span, paths),
        Status::Launch(place) => launch_line(alloc, place),
        Status::Keep => Text::from_plain(alloc, "journal fault\n"),
        Status::TooMany => Text::from_plain(alloc, "too many jobs\n"),
    }
}
