ghost use Rattle.std.specs.Prelude.{◌≡◌};
ghost use Rattle.std.specs.Option.{option_copied};
ghost use Rattle.wdl_check_rules.specs.Spans as spec;

use wdl_ast::Expr;
use wdl_value::{Name, Span};

fn joined(first: Span, last: Span) -> Span
    ensures { result ≡ spec.joined first last }
{
    Span {
        doc: first.doc,
        start: first.start,
        end: last.end,
    }
}

/// Where an expression stands, from its first token to its last one.
pub fn span_of(e: &Expr) -> Span
    ensures { result ≡ spec.span_of e.now }
{
    match e {
        Expr::If {
            keyword,
            refused,
            ..
        } => joined(*keyword, span_of(refused.get())),
        Expr::Binary { left, right, .. } => joined(span_of(left.get()), span_of(right.get())),
        Expr::Unary { sign, operand, .. } => joined(*sign, span_of(operand.get())),
        Expr::Member { base, name, .. } => joined(span_of(base.get()), name.span),
        Expr::Index { base, closing, .. } => joined(span_of(base.get()), *closing),
        Expr::True(span) | Expr::False(span) | Expr::None(span) | Expr::Int { span, .. } => *span,
        Expr::Str(string) => joined(string.opening, string.closing),
        Expr::Name(name) => name.span,
        Expr::Call { name, closing, .. } | Expr::Struct { name, closing, .. } => {
            joined(name.span, *closing)
        }
        Expr::Group {
            opening,
            closing,
            ..
        }
        | Expr::Pair {
            opening,
            closing,
            ..
        }
        | Expr::List {
            opening,
            closing,
            ..
        }
        | Expr::Map {
            opening,
            closing,
            ..
        } => joined(*opening, *closing),
    }
}

/// The name that an expression is; one in parentheses is none.
pub fn name_of(e: &Expr) -> Option<&Name>
    ensures { option_copied result ≡ spec.name_of e.now }
{
    match e {
        Expr::Name(ident) => Some(&ident.name),
        _ => None,
    }
}
