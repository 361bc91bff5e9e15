//! The lines of warnings.

use crate::lint::Warning;
use crate::sentence::sentence;
use fault_places::{Note, Position, excerpt, position_of};
use std::alloc::Global;
use wdl_value::{NoMemory, Span};

/// How many bytes of a document before and behind a span its line is looked for in.
const MOST_LOOKED_AT: u32 = 1_024;

/// The place of a byte of a document.
#[derive(Clone, Copy)]
struct Reached {
    at: u32,
    line: usize,
    column: usize,
}

impl Reached {
    /// The place of a byte behind this one, in time linear in the bytes between them.
    fn go_on(self, bytes: &[u8], at: u32) -> Reached {
        let rest = bytes.get(self.at as usize..).unwrap_or(&[]);
        let Position { line, column } = position_of(rest, at.saturating_sub(self.at));
        Reached {
            at,
            line: self.line.saturating_add(line).saturating_sub(1),
            column: if line == 1 {
                self.column.saturating_add(column).saturating_sub(1)
            } else {
                column
            },
        }
    }
}

/// Appends the line in which a span begins, with carets. It looks at the bytes near the span alone.
fn show(alloc: Global, note: &mut Note, bytes: &[u8], span: Span) -> Result<(), NoMemory> {
    let from = span.start.saturating_sub(MOST_LOOKED_AT);
    let near = bytes.get(from as usize..).unwrap_or(&[]);
    let most = span.end.saturating_sub(from).saturating_add(MOST_LOOKED_AT);
    let near = near.get(..most as usize).unwrap_or(near);
    let span = Span {
        doc: span.doc,
        start: span.start.saturating_sub(from),
        end: span.end.saturating_sub(from),
    };
    excerpt(alloc, note, near, span)
}

/// Appends how the line of a warning begins.
fn head(note: &mut Note, path: &str, place: Reached) -> Result<(), NoMemory> {
    note.push(path)?;
    note.push(":")?;
    note.push_number(place.line)?;
    note.push(":")?;
    note.push_number(place.column)?;
    note.push(": warning: ")
}

/// Appends the warnings on the document at a path, which stand in the order of their spans.
pub fn tell(
    alloc: Global,
    note: &mut Note,
    path: &str,
    bytes: &[u8],
    warnings: &[Warning],
) -> Result<(), NoMemory> {
    let mut place = Reached {
        at: 0,
        line: 1,
        column: 1,
    };
    for warning in warnings {
        let Warning { span, lint } = *warning;
        place = place.go_on(bytes, span.start);
        head(note, path, place)?;
        sentence(note, lint, bytes, span)?;
        note.push("\n")?;
        show(alloc, note, bytes, span)?;
    }
    Ok(())
}

/// Appends how many warnings there are.
pub fn tell_count(note: &mut Note, count: usize) -> Result<(), NoMemory> {
    note.push_number(count)?;
    note.push(if count == 1 {
        " warning\n"
    } else {
        " warnings\n"
    })
}
