ghost use Rattle.std.specs.Prelude.{◌≡◌};
ghost use Rattle.wdl_same.specs.Exprs as spec;

use crate::choosing::{same_choice, same_func, same_op};
use wdl_names::same_key;
use wdl_typed::{TExpr, TField, TPair, TPart};
use wdl_value::same_value;

/// Whether the expressions are equal. It takes no memory.
#[cycle(same)]
pub fn same_expr(a: &TExpr, b: &TExpr) -> bool
    ensures { result ≡ spec.same_expr a.now b.now }
{
    match (a, b) {
        (TExpr::Lit(x), TExpr::Lit(y)) => same_value(x, y),
        (TExpr::Get(j), TExpr::Get(k)) => same_key(j, k),
        (TExpr::Member(e, n), TExpr::Member(f, m)) => same_expr(e.get(), f.get()) && n.same(m),
        (TExpr::At(c, d), TExpr::At(e, f)) | (TExpr::PairOf(c, d), TExpr::PairOf(e, f)) => {
            same_expr(c.get(), e.get()) && same_expr(d.get(), f.get())
        }
        (TExpr::Not(e), TExpr::Not(f)) | (TExpr::Neg(e), TExpr::Neg(f)) => {
            same_expr(e.get(), f.get())
        }
        (TExpr::Binary(o, c, d), TExpr::Binary(p, e, f)) => {
            same_op(*o, *p) && same_expr(c.get(), e.get()) && same_expr(d.get(), f.get())
        }
        (TExpr::Choose(c, d, e), TExpr::Choose(f, g, h)) => {
            same_expr(c.get(), f.get())
                && same_expr(d.get(), g.get())
                && same_expr(e.get(), h.get())
        }
        (TExpr::ListOf(es), TExpr::ListOf(fs)) => same_exprs(es.as_slice(), fs.as_slice()),
        (TExpr::MapOf(rows), TExpr::MapOf(others)) => same_rows(rows.as_slice(), others.as_slice()),
        (TExpr::StructOf(n, fields), TExpr::StructOf(m, others)) => {
            n.same(m) && same_fields(fields.as_slice(), others.as_slice())
        }
        (TExpr::Apply(f, es), TExpr::Apply(g, fs)) => {
            same_func(*f, *g) && same_exprs(es.as_slice(), fs.as_slice())
        }
        (TExpr::Strung(parts), TExpr::Strung(others)) => {
            same_parts(parts.as_slice(), others.as_slice())
        }
        (TExpr::Cast(e, t), TExpr::Cast(f, u)) => same_expr(e.get(), f.get()) && t.same(u),
        _ => false,
    }
}

#[cycle(same)]
fn same_exprs(xs: &[TExpr], ys: &[TExpr]) -> bool
    ensures { result ≡ spec.same_exprs xs.now ys.now }
{
    let mut left = ys;
    for x in xs {
        let [y, rest @ ..] = left else {
            return false;
        };
        if !same_expr(x, y) {
            return false;
        }
        left = rest;
    }
    left.is_empty()
}

#[cycle(same)]
fn same_rows(xs: &[TPair<TExpr>], ys: &[TPair<TExpr>]) -> bool
    ensures { result ≡ spec.same_rows xs.now ys.now }
{
    let mut left = ys;
    for x in xs {
        let [y, rest @ ..] = left else {
            return false;
        };
        if !(same_expr(&x.key, &y.key) && same_expr(&x.value, &y.value)) {
            return false;
        }
        left = rest;
    }
    left.is_empty()
}

/// Whether both lists have the same names with equal expressions, in the same order.
#[cycle(same)]
pub fn same_fields(xs: &[TField<TExpr>], ys: &[TField<TExpr>]) -> bool
    ensures { result ≡ spec.same_fields xs.now ys.now }
{
    let mut left = ys;
    for x in xs {
        let [y, rest @ ..] = left else {
            return false;
        };
        if !(x.name.same(&y.name) && same_expr(&x.value, &y.value)) {
            return false;
        }
        left = rest;
    }
    left.is_empty()
}

/// Whether the pieces of two strings, or of two commands, are equal.
#[cycle(same)]
pub fn same_parts(xs: &[TPart<TExpr>], ys: &[TPart<TExpr>]) -> bool
    ensures { result ≡ spec.same_parts xs.now ys.now }
{
    let mut left = ys;
    for x in xs {
        let [y, rest @ ..] = left else {
            return false;
        };
        match (x, y) {
            (TPart::Chars(s), TPart::Chars(t)) => {
                if !s.same(t) {
                    return false;
                }
                left = rest;
            }
            (TPart::Hole(h), TPart::Hole(k)) => {
                if !(same_expr(&h.expr, &k.expr) && same_choice(&h.choice, &k.choice)) {
                    return false;
                }
                left = rest;
            }
            _ => return false,
        }
    }
    left.is_empty()
}
