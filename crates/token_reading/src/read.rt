//! Steps that all rules share.

ghost use Rattle.std.specs.Prelude.{◌≡◌, ◌+◌, ◌<◌, nat_le, max, List, Err};
ghost use Rattle.wdl_ast.specs.declared.token.Token.{Token};
ghost use Rattle.token_reading.specs.Outcome as outcome;
ghost use Rattle.token_reading.specs.Outcome.{Reads};
ghost use Rattle.token_reading.specs.declared.fault.Refusal.TheVariants.{Missing, Bad};
ghost use Rattle.token_reading.specs.declared.fault.RuleStop.TheVariants.{Refused};

use crate::cursor::Cursor;
use crate::fault::{Fault, Refusal, RuleStop};
use crate::tall::{Chain, Tall};
use wdl_ast::Expr;
use wdl_value::Span;

/// Nothing of the kind starts there.
pub fn missing<T>() -> Result<T, RuleStop>
    ensures { result ≡ Err (Refused Missing) }
{
    Err(RuleStop::Refused(Refusal::Missing))
}

/// A code that is said of a token.
pub fn bad<T>(code: u16, span: Span) -> Result<T, RuleStop>
    ensures { result ≡ Err (Refused (Bad (record { code = code; span = span }))) }
{
    Err(RuleStop::Refused(Refusal::Bad(Fault { code, span })))
}

/// The larger of two depths.
pub fn deeper(a: usize, b: usize) -> usize
    ensures { result ≡ max a b }
{
    if a < b { b } else { a }
}

fn is_within(depth: usize, links: usize, inside: usize) -> bool
    ensures { result ≡ nat_le (links + inside) depth }
{
    inside <= depth && links <= depth - inside
}

/// A node over parts of that depth that counts once for each link, unless it is too deep.
#[tactic(auto, unfolding(crate::specs::Outcome::grown))]
pub fn grown<T>(
    depth: usize,
    span: Span,
    links: usize,
    inside: usize,
    tree: T,
) -> Result<Tall<T>, RuleStop>
where
    T: Drop,
    requires { depth < 18446744073709551615 }
    ensures { (ts : List Token) → Reads (outcome.grown depth span links inside tree ts) result ts }
{
    if is_within(depth, links, inside) {
        return Ok(Tall {
            tree,
            depth: links + inside + 1,
        });
    }
    bad(111, span)
}

/// The same with one more link.
#[tactic(auto, unfolding(crate::specs::Outcome::linked))]
pub fn linked(
    depth: usize,
    span: Span,
    links: usize,
    inside: usize,
    tree: Expr,
) -> Result<Chain, RuleStop>
    requires { depth < 18446744073709551615 }
    ensures { (ts : List Token) → Reads (outcome.linked depth span links inside tree ts) result ts }
{
    if is_within(depth, links, inside) {
        return Ok(Chain {
            left: Tall {
                tree,
                depth: links + inside + 1,
            },
            links: links + 1,
            inside,
        });
    }
    bad(111, span)
}

/// The limit of depth is met.
pub fn too_deep<T>(tokens: &Cursor<'_>) -> Result<T, RuleStop>
    ensures { Reads (outcome.too_deep tokens.now) result tokens.now }
{
    match tokens.span() {
        Some(span) => bad(111, span),
        None => missing(),
    }
}
