//! Whole documents.

ghost use Rattle.std.specs.Prelude.{◌≡◌, IfOk, MatchResult, false};
ghost use Rattle.wdl_ast.specs.declared.token.Kind.TheVariants as kind;
ghost use Rattle.wdl_parse_expr.specs.Contract.{IfBad};
ghost use Rattle.wdl_parse_doc.specs.Contract as contract;
ghost use Rattle.wdl_parse_doc.specs.Contract.{Written, RefusesDocument};

use crate::section::sections;
use std::alloc::Global;
use token_reading::{Cursor, ParseFault};
use wdl_ast::{Document, Kind, Token};
use wdl_parse_expr::fault_of;
use wdl_value::Span;

fn is_version(kind: &Kind) -> bool
    ensures { result ≡ contract.is_version kind.now }
{
    match kind {
        Kind::Word(word) => word.is("version"),
        _ => false,
    }
}

fn is_number(kind: &Kind) -> bool
    ensures { result ≡ contract.is_number kind.now }
{
    match kind {
        Kind::Frac(spelling) => spelling.is("1.1"),
        _ => false,
    }
}

/// The spans of `version 1.1` and the tokens behind it, or where it is amiss.
fn version(tokens: &[Token]) -> Result<(Span, Span, &[Token]), Span>
    ensures { MatchResult result (λ r. contract.BehindVersion tokens.now r.0 r.1 r.2.now) (λ s. (contract.begins_version tokens.now ≡ false) × (s ≡ contract.version_span tokens.now)) }
{
    match tokens {
        [] => Err(Span {
            doc: 0,
            start: 0,
            end: 0,
        }),
        [only] => Err(only.span),
        [first, second, rest @ ..] => {
            if !is_version(&first.kind) {
                return Err(first.span);
            }
            if !is_number(&second.kind) {
                return Err(second.span);
            }
            Ok((first.span, second.span, rest))
        }
    }
}

/// The document of a list of tokens, in time linear in it (OpenWDL 1.1, "WDL documents"). 112 is
/// answered where the tokens do not begin with `version 1.1`, at 0 to 0 of document 0 where there
/// are none; 111 where a depth is past its limit: 64 of an expression or a value of metadata, and 8
/// of a type; 120 to 123 at a form that is left out: fractions, objects, and the functions that
/// need them, `sub`, `read_json` and `write_json`; 110 where no document has the tokens for another
/// reason. Blocks may stand in one another to any depth, and take no stack.
pub fn parse(alloc: Global, tokens: &[Token]) -> Result<Document, ParseFault>
    // The tokens are those of the document, which is in the grammar.
    ensures found { IfOk result (λ d. Written tokens.now d) }
    // No document has them, and the code is true.
    ensures refused { IfBad (RefusesDocument tokens.now) result }
{
    let (version, number, rest) = match version(tokens) {
        Ok(found) => found,
        Err(span) => return Err(ParseFault::Bad { code: 112, span }),
    };
    let mut cursor = Cursor::new(rest);
    match sections(alloc, &mut cursor) {
        Ok(sections) => Ok(Document {
            version,
            number,
            sections,
        }),
        Err(stop) => Err(fault_of(stop, tokens, cursor.left_at_fault())),
    }
}
