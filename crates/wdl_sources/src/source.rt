//! One document of a library.

ghost use Rattle.std.specs.Prelude.{◌≡◌, ◌↔◌, ◌≤◌, ℕ, List};
ghost use Rattle.wdl_port.specs.Causes.{Rose};
ghost use Rattle.wdl_sources.specs.Reading as spec;
ghost use Rattle.wdl_sources.specs.Walks.{FetchCounts, Fetches};

use std::alloc::Global;
use thiserror::Error;
use token_reading::ParseFault;
use wdl_ast::Document;
use wdl_lex::{LexFault, lex};
use wdl_parse_doc::parse;
use wdl_port::{ReadFault, Shelf};
use wdl_value::{Span, Text};

/// A document, and the path at which it was read.
#[derive(Drop)]
pub struct Source {
    pub path: Text,
    pub document: Document,
}

/// The document that bytes are, whose spans have this number. Where there are no tokens the fault
/// has it too.
pub fn document_of(alloc: Global, bytes: &[u8], number: u32) -> Result<Document, ParseFault>
    ensures { spec.IsOutcome number bytes.now result }
{
    let tokens = match lex(alloc, bytes, number) {
        Ok(tokens) => tokens,
        Err(LexFault::Bad { code, span }) => return Err(ParseFault::Bad { code, span }),
        Err(LexFault::NoMemory) => return Err(ParseFault::NoMemory),
    };
    match parse(alloc, tokens.as_slice()) {
        Ok(document) => Ok(document),
        Err(ParseFault::Bad { code, span }) => Err(ParseFault::Bad {
            code,
            span: Span {
                doc: number,
                start: span.start,
                end: span.end,
            },
        }),
        Err(ParseFault::NoMemory) => Err(ParseFault::NoMemory),
    }
}

/// Why there is no document at a path.
#[derive(Clone, Copy, Debug, PartialEq, Eq, Error)]
pub enum SourceFault {
    /// The shelf refuses the path, and counted a fault.
    #[error("the document could not be read")]
    Failed,
    #[error("error {code}")]
    Bad { code: u16, span: Span },
    #[error("out of memory")]
    NoMemory,
}

/// The document at a path, whose spans have this number.
pub fn fetch<F: Shelf>(
    alloc: Global,
    shelf: &mut F,
    path: &Text,
    number: u32,
) -> Result<Document, SourceFault>
    ensures outcome { Fetches (F.tells shelf.old path.now) (F.refuses shelf.old path.now) (Rose (F.faults shelf.old) (F.faults shelf.new)) number result }
    ensures counted { FetchCounts result (F.faults shelf.old) (F.faults shelf.new) }
    ensures later { F.faults shelf.old ≤ F.faults shelf.new }
    ensures same_files { (p : List ℕ) → F.tells shelf.new p ≡ F.tells shelf.old p }
    ensures same_refusals { (p : List ℕ) → F.refuses shelf.new p ↔ F.refuses shelf.old p }
{
    let bytes = match shelf.read(alloc, path.as_str()) {
        Ok(bytes) => bytes,
        Err(ReadFault::Failed) => return Err(SourceFault::Failed),
        Err(ReadFault::NoMemory) => return Err(SourceFault::NoMemory),
    };
    match document_of(alloc, bytes.as_slice(), number) {
        Ok(document) => Ok(document),
        Err(ParseFault::Bad { code, span }) => Err(SourceFault::Bad { code, span }),
        Err(ParseFault::NoMemory) => Err(SourceFault::NoMemory),
    }
}
