//! Whether expressions read what the command of a task wrote.

ghost use Rattle.std.specs.Prelude.{◌≡◌};
ghost use Rattle.wdl_typed.specs.Reading.{any_reading, fields_reading, parts_reading, rows_reading};
ghost use Rattle.wdl_typed.specs.Requests as spec;

use crate::expr::{TExpr, TField, TPair, TPart};
use crate::task::TDecl;

/// Returns whether some function in the expression reads what the command wrote, as `read_lines`
/// does.
#[cycle(is_reading)]
pub fn is_reading(expr: &TExpr) -> bool
    ensures { result ≡ spec.is_reading expr.now }
{
    match expr {
        TExpr::Lit(_) | TExpr::Get(_) => false,
        TExpr::Member(a, _) | TExpr::Not(a) | TExpr::Neg(a) | TExpr::Cast(a, _) => {
            is_reading(a.get())
        }
        TExpr::At(a, b) | TExpr::Binary(_, a, b) | TExpr::PairOf(a, b) => {
            is_reading(a.get()) || is_reading(b.get())
        }
        TExpr::Choose(c, a, b) => {
            is_reading(c.get()) || is_reading(a.get()) || is_reading(b.get())
        }
        TExpr::ListOf(exprs) => is_any_reading(exprs.as_slice()),
        TExpr::Apply(f, args) => f.reads_text() || is_any_reading(args.as_slice()),
        TExpr::MapOf(rows) => is_row_reading(rows.as_slice()),
        TExpr::StructOf(_, fields) => is_field_reading(fields.as_slice()),
        TExpr::Strung(parts) => is_part_reading(parts.as_slice()),
    }
}

#[cycle(is_reading)]
fn is_any_reading(exprs: &[TExpr]) -> bool
    ensures { result ≡ any_reading exprs.now }
{
    for expr in exprs {
        if is_reading(expr) {
            return true;
        }
    }
    false
}

#[cycle(is_reading)]
fn is_row_reading(rows: &[TPair<TExpr>]) -> bool
    ensures { result ≡ rows_reading rows.now }
{
    for row in rows {
        if is_reading(&row.key) || is_reading(&row.value) {
            return true;
        }
    }
    false
}

#[cycle(is_reading)]
fn is_field_reading(fields: &[TField<TExpr>]) -> bool
    ensures { result ≡ fields_reading fields.now }
{
    for field in fields {
        if is_reading(&field.value) {
            return true;
        }
    }
    false
}

#[cycle(is_reading)]
fn is_part_reading(parts: &[TPart<TExpr>]) -> bool
    ensures { result ≡ parts_reading parts.now }
{
    for part in parts {
        let TPart::Hole(hole) = part else {
            continue;
        };
        if is_reading(&hole.expr) {
            return true;
        }
    }
    false
}

/// Returns whether an expression of the declarations reads what the command wrote.
pub fn do_read(decls: &[TDecl]) -> bool
    ensures { result ≡ spec.reads_any decls.now }
{
    for decl in decls {
        if is_reading(&decl.value) {
            return true;
        }
    }
    false
}
