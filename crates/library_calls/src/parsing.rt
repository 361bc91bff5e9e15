//! The longest expression or type that starts at a place of the tokens.

ghost use Rattle.std.specs.Prelude.{◌≡◌, ◌≤◌, length, drop, Ok, IfOk};
ghost use Rattle.wdl_ast.specs.Words.{words, type_words};
ghost use Rattle.wdl_parse_expr.specs.Contract.{IfBad, read_expr};
ghost use Rattle.wdl_parse_expr.specs.Grammar.{IsExpr};
ghost use Rattle.token_reading.specs.TypeGrammar.{IsType};
ghost use Rattle.library_calls.specs.Parsing.{Fronts, IsLongest, RefusesExpr, RefusesType};

use std::alloc::Global;
use token_reading::{Cursor, ParseFault};
use wdl_ast::{Expr, Token, TypeTree};
use wdl_parse_expr::{fault_of, read_type};

/// An expression, and the place of the token behind it.
#[derive(Drop)]
pub struct ParsedExpr {
    pub expr: Expr,
    pub next: usize,
}

/// A type, and the place of the token behind it.
#[derive(Drop)]
pub struct ParsedType {
    pub ty: TypeTree,
    pub next: usize,
}

/// A cursor at a place.
fn cursor_at(tokens: &[Token], at: usize) -> Cursor<'_>
    requires { at ≤ length tokens.now }
    ensures { result ≡ drop at tokens.now }
{
    Cursor::new(&tokens[at..])
}

/// The longest expression that starts at a place of the tokens, in time linear in its tokens
/// (OpenWDL 1.1, "Expressions"). Its depth is at most 64: a literal, name, call, string, or
/// anything in brackets counts once, an `if` once, and an operator, a member or an index once.
/// Fractions, objects, and the functions that need them are refused by codes of their own where
/// reading meets them.
pub fn parse_expr(alloc: Global, tokens: &[Token], at: usize) -> Result<ParsedExpr, ParseFault>
    requires { at ≤ length tokens.now }
    ensures within { IfOk result (λ r. r.next ≤ length tokens.now) }
    // It stands there.
    ensures found { IfOk result (λ r. Fronts IsExpr words (drop at tokens.now) r.expr (drop r.next tokens.now)) }
    // No other one does that is as long.
    ensures longest { IfOk result (λ r. IsLongest IsExpr words (drop at tokens.now) r.expr (drop r.next tokens.now)) }
    // It is what reading to the end of it gives: no shorter one is answered where a code holds
    // behind that.
    ensures read { IfOk result (λ r. read_expr (drop at tokens.now) ≡ Ok (r.expr, drop r.next tokens.now)) }
    // 110, at one of the tokens, where none starts there; any other code is true of a token, and
    // each that starts there may go on.
    ensures refused { IfBad (RefusesExpr tokens.now (drop at tokens.now)) result }
{
    let mut cursor = cursor_at(tokens, at);
    match wdl_parse_expr::read_expr(alloc, &mut cursor) {
        Ok(expr) => {
            let left = cursor.len();
            Ok(ParsedExpr {
                expr,
                next: tokens.len() - left,
            })
        }
        Err(stop) => Err(fault_of(stop, tokens, cursor.left_at_fault())),
    }
}

/// The longest type that starts at a place of the tokens, in time linear in its tokens (OpenWDL
/// 1.1, "Types"). Its depth is at most 8, each type inside another counting once. `Float` and
///   `Object` are refused by codes of their own.
pub fn parse_type(alloc: Global, tokens: &[Token], at: usize) -> Result<ParsedType, ParseFault>
    requires { at ≤ length tokens.now }
    ensures within { IfOk result (λ r. r.next ≤ length tokens.now) }
    // It stands there.
    ensures found { IfOk result (λ r. Fronts IsType type_words (drop at tokens.now) r.ty (drop r.next tokens.now)) }
    // No other one does that is as long.
    ensures longest { IfOk result (λ r. IsLongest IsType type_words (drop at tokens.now) r.ty (drop r.next tokens.now)) }
    // None starts there; 110 is said of one of the tokens, and any other code is true of its token.
    ensures refused { IfBad (RefusesType tokens.now (drop at tokens.now)) result }
{
    let mut cursor = cursor_at(tokens, at);
    match read_type(alloc, &mut cursor) {
        Ok(ty) => {
            let left = cursor.len();
            Ok(ParsedType {
                ty,
                next: tokens.len() - left,
            })
        }
        Err(stop) => Err(fault_of(stop, tokens, cursor.left_at_fault())),
    }
}
