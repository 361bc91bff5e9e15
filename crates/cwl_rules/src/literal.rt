//! Literals.

ghost use Rattle.std.specs.Prelude.{◌≡◌, map};
ghost use Rattle.cwl_image.specs.Expressions as spec;
ghost use Rattle.wdl_value.specs.declared.value.Value.{out-Value};

use cwl_image::Literal;
use wdl_typed::TExpr;
use wdl_value::Value;

/// The most statuses that `returnCodes` may list.
const MOST_CODES: usize = 256;

/// The literal of a value.
fn value_literal(x: &Value) -> Literal
    ensures { result ≡ spec.literal_in (out-Value x.now) }
{
    match x {
        Value::Int(n) => Literal {
            number: Some(*n),
            is_literal: true,
            are_codes: false,
        },
        _ => Literal {
            number: None,
            is_literal: matches!(x, Value::Bool(_) | Value::Str(_)),
            are_codes: false,
        },
    }
}

/// The literal with `-` before it: an Int literal that is not negative.
fn minus(number: Option<i64>) -> Option<i64>
    ensures { result ≡ spec.minus number }
{
    match number {
        Some(n) if n >= 0 => Some(-n),
        _ => None,
    }
}

/// Whether the number is 0.
pub fn is_zero(number: Option<i64>) -> bool
    ensures { result ≡ spec.is_zero number }
{
    matches!(number, Some(0))
}

/// What an expression is as a literal, casts aside.
#[cycle(literal)]
pub fn literal_of(e: &TExpr) -> Literal
    ensures { result ≡ spec.literal_of e.now }
{
    match e {
        TExpr::Lit(x) => value_literal(x),
        TExpr::Neg(a) => {
            let number = minus(literal_of(a.get()).number);
            Literal {
                number,
                is_literal: number.is_some(),
                are_codes: false,
            }
        }
        TExpr::ListOf(es) => list_literal(es.as_slice()),
        TExpr::Cast(a, _) => literal_of(a.get()),
        _ => Literal {
            number: None,
            is_literal: false,
            are_codes: false,
        },
    }
}

/// The same of a list of expressions.
#[cycle(literal)]
fn list_literal(es: &[TExpr]) -> Literal
    ensures { result ≡ spec.list_literal (map spec.literal_of es.now) }
{
    let mut is_literal = true;
    let mut are_numbers = true;
    let mut has_zero = false;
    for e in es {
        let item = literal_of(e);
        is_literal = is_literal && item.is_literal;
        are_numbers = are_numbers && item.number.is_some();
        has_zero = has_zero || is_zero(item.number);
    }
    Literal {
        number: None,
        is_literal,
        are_codes: es.len() <= MOST_CODES && are_numbers && has_zero,
    }
}
