//! The stop of a workflow that has no CWL document, or no bundle.

ghost use Rattle.std.specs.Prelude.{IfOk};
ghost use Rattle.report_text.specs.Lines.{HasPath};
ghost use Rattle.workflow_stages.specs.Paths as spec;

use crate::checking::stop_of;
use crate::ended::CommandStop;
use crate::explain::Explain;
use report_text::Status;
use std::alloc::Global;
use wdl_value::{Items, NoMemory, Span, Text};

/// The paths, and empty ones behind them up to that number.
fn padded(alloc: Global, paths: Items<Text>, number: u32) -> Result<Items<Text>, NoMemory>
    ensures value { IfOk result (λ all. spec.ArePaths paths number all) }
{
    let mut all = paths;
    'fill: while all.len() <= number as usize {
        all.push(Text::empty(alloc))?;
    }
    Ok(all)
}

/// The stop of a rule that is broken at a span of the documents with these paths.
pub fn outside<F: Explain>(
    alloc: Global,
    rule: u16,
    span: Span,
    paths: Items<Text>,
    shelf: &F,
) -> CommandStop
    ensures value { spec.IsOutsideStop rule span paths result.status result.paths }
    ensures paths { HasPath result.status result.paths }
{
    let note = match paths.get(span.doc as usize) {
        Some(path) => shelf.document(alloc, path, rule, span, None),
        None => None,
    };
    match padded(alloc, paths, span.doc) {
        Ok(paths) => CommandStop {
            status: Status::NotInSubset(rule, span),
            paths,
            note,
        },
        Err(_) => stop_of(alloc, Status::NoMemory),
    }
}
