//! What a refusal of reading is to the caller.

ghost use Rattle.wdl_parse_expr.specs.Contract.{IsPlaced, FaultOf};

use token_reading::{ParseFault, Refusal, RuleStop};
use wdl_ast::Token;
use wdl_value::Span;

/// The span of the token from which on so many are left; of the last one, where none is.
fn span_from(tokens: &[Token], left: usize) -> Span
    ensures { IsPlaced tokens.now result }
{
    match tokens {
        [] => Span {
            doc: 0,
            start: 0,
            end: 0,
        },
        [.., last] => match tokens.get(tokens.len().saturating_sub(left)) {
            Some(token) => token.span,
            None => last.span,
        },
    }
}

/// What a refusal of reading is to the caller. `left` tells how many tokens were left from the
/// first one on that fits nothing.
pub fn fault_of(stop: RuleStop, tokens: &[Token], left: usize) -> ParseFault
    ensures { FaultOf tokens.now stop result }
{
    match stop {
        RuleStop::NoMemory => ParseFault::NoMemory,
        RuleStop::Refused(Refusal::Missing) => ParseFault::Bad {
            code: 110,
            span: span_from(tokens, left),
        },
        RuleStop::Refused(Refusal::Bad(fault)) => ParseFault::Bad {
            code: fault.code,
            span: fault.span,
        },
    }
}
