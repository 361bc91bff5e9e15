//! Whole texts.

ghost use Rattle.std.specs.Prelude.{◌≡◌, ℕ, ◌+◌, ◌≤◌, true, List, Some, IfOk, IfErr, length};
ghost use Rattle.std.specs.Str.{IsUtf8};
ghost use Rattle.wdl_ast.specs.declared.token.Token.{Token};
ghost use Rattle.wdl_ast.specs.Spelled as form;
ghost use Rattle.wdl_ast.specs.Spelled.{Spelled};
ghost use Rattle.wdl_lex.specs.declared.fault.LexFault.TheVariants as lex_fault;
ghost use Rattle.wdl_lex.specs.Faults.{Answers, HasCause};
ghost use Rattle.wdl_lex.specs.Reading as spec;
ghost use Rattle.wdl_lex.specs.Limits.{IsWithinLimits};

use crate::classes::behind;
use crate::fault::{LexFault, NoToken};
use crate::open::Open;
use sqlite_items::Items;
use std::alloc::Global;
use std::str;
use wdl_ast::{Kind, Token};
use wdl_value::Span;

/// The bytes that a document may have.
pub const MAX_DOCUMENT: usize = 1_048_576;

/// The fault of one byte.
fn bad(code: u16, doc: u32, at: usize) -> LexFault
    requires { at ≤ MAX_DOCUMENT }
    ensures { result ≡ lex_fault.Bad code (form.span_at doc at (at + 1)) }
{
    LexFault::Bad {
        code,
        span: Span {
            doc,
            start: at as u32,
            end: (at + 1) as u32,
        },
    }
}

fn is_command(kind: &Kind) -> bool
    ensures { result ≡ form.is_command kind.now }
{
    match kind {
        Kind::Word(word) => word.is("command"),
        _ => false,
    }
}

/// The fault of the token that begins at a place.
fn stopped(stop: NoToken, doc: u32, at: usize) -> LexFault
    requires place { at ≤ MAX_DOCUMENT }
    requires near { spec.IsNear MAX_DOCUMENT stop }
    ensures { result ≡ spec.stopped doc at stop }
{
    match stop {
        NoToken::NoMemory => LexFault::NoMemory,
        NoToken::Flaw(flaw) => LexFault::Bad {
            code: flaw.code,
            span: Span {
                doc,
                start: (at + flaw.start) as u32,
                end: (at + flaw.end) as u32,
            },
        },
    }
}

/// The fault of a text that ends while this token is open.
fn unclosed(token: &Token) -> LexFault
    ensures { spec.Fails (spec.ended (Some token.now)) result }
{
    let code = match token.kind {
        Kind::CommandOpen(_) => 104,
        _ => 103,
    };
    LexFault::Bad {
        code,
        span: token.span,
    }
}

fn read(alloc: Global, z: &[u8], doc: u32) -> Result<Items<Token>, LexFault>
    requires utf8 { IsUtf8 z.now }
    requires small { length z.now ≤ MAX_DOCUMENT }
    ensures { spec.Gives (spec.lex true doc z.now) result }
{
    let mut opened = Open::new(alloc);
    let mut tokens = Items::new(alloc);
    let mut awaits = false;
    let mut at = 0;
    for _turn in 0..z.len() + 1 {
        let start = at + opened.gap(behind(z, at));
        if start == z.len() {
            return match opened.unclosed() {
                None => Ok(tokens),
                Some(token) => Err(unclosed(&token)),
            };
        }
        let (kind, len) = match opened.token(alloc, behind(z, start), awaits) {
            Ok(found) => found,
            Err(stop) => return Err(stopped(stop, doc, start)),
        };
        at = start + len;
        let span = Span {
            doc,
            start: start as u32,
            end: at as u32,
        };
        opened.pass(span, &kind)?;
        awaits = is_command(&kind);
        tokens.push(Token { span, kind })?;
    }
    Err(LexFault::Bad {
        code: 102,
        span: Span {
            doc,
            start: at as u32,
            end: at as u32,
        },
    })
}

/// The tokens of the text of document `doc`: exactly those that the text spells, where its limits
/// are kept, and else `Bad` with a code that holds at its span. Where several codes hold, the first
/// that is met is answered.
///
/// (OpenWDL 1.1: "Whitespace", "Literals", "Strings", "Expression Placeholders", "Command
/// Section".)
pub fn lex(alloc: Global, bytes: &[u8], doc: u32) -> Result<Items<Token>, LexFault>
    // What is read is spelled so.
    ensures found { IfOk result (λ ts. Spelled doc bytes.now ts × IsWithinLimits bytes.now ts) }
    // What is spelled so is read, unless memory runs out.
    ensures only { (ts : List Token) → Spelled doc bytes.now ts → IsWithinLimits bytes.now ts → Answers ts result }
    // What is wrong otherwise.
    ensures cause { IfErr result (HasCause doc bytes.now) }
{
    if bytes.len() > MAX_DOCUMENT {
        return Err(bad(107, doc, MAX_DOCUMENT));
    }
    match str::from_utf8(bytes) {
        Ok(text) => read(alloc, text.as_bytes(), doc),
        Err(error) => Err(bad(101, doc, error.valid_up_to())),
    }
}

/// A text has at most one list of tokens.
pub fn one_reading_of_texts()
    ensures { (doc : ℕ) (bytes : List ℕ) (ts us : List Token) → Spelled doc bytes ts → Spelled doc bytes us → ts ≡ us }
{}
