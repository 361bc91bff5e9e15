ghost use Rattle.std.specs.Prelude.{◌≡◌};
ghost use Rattle.wdl_same.specs.Forms as spec;

use crate::declared::same_decl;
use crate::expressions::{same_expr, same_fields};
use crate::partners::is_partner;
use wdl_typed::{Statement, TCall, Target};
use wdl_value::Name;

fn same_names(xs: &[Name], ys: &[Name]) -> bool
    ensures { result ≡ spec.same_names xs.now ys.now }
{
    let mut left = ys;
    for x in xs {
        let [y, rest @ ..] = left else {
            return false;
        };
        if !x.same(y) {
            return false;
        }
        left = rest;
    }
    left.is_empty()
}

fn same_target(partners: &[Option<u32>], owners: &[Option<u32>], a: Target, b: Target) -> bool
    ensures { result ≡ spec.same_target partners.now owners.now a b }
{
    match (a, b) {
        (Target::Task(k), Target::Task(j)) => {
            is_partner(partners, k, j) && is_partner(owners, j, k)
        }
        _ => false,
    }
}

fn same_call(partners: &[Option<u32>], owners: &[Option<u32>], c: &TCall, d: &TCall) -> bool
    ensures { result ≡ spec.same_call partners.now owners.now c.now d.now }
{
    c.name.same(&d.name)
        && same_names(c.after.as_slice(), d.after.as_slice())
        && same_fields(c.args.as_slice(), d.args.as_slice())
        && same_target(partners, owners, c.target, d.target)
}

#[cycle(bodies)]
fn same_statement(
    s: &Statement,
    t: &Statement,
    partners: &[Option<u32>],
    owners: &[Option<u32>],
) -> bool
    ensures { result ≡ spec.same_statement partners.now owners.now s.now t.now }
{
    match (s, t) {
        (Statement::Decl(d), Statement::Decl(e)) => same_decl(d, e),
        (Statement::Call(c), Statement::Call(d)) => same_call(partners, owners, c, d),
        (Statement::Scatter(c), Statement::Scatter(d)) => {
            c.number == d.number
                && c.item.same(&d.item)
                && same_expr(&c.over, &d.over)
                && same_body(c.body.as_slice(), d.body.as_slice(), partners, owners)
        }
        (Statement::If(c), Statement::If(d)) => {
            c.number == d.number
                && same_expr(&c.cond, &d.cond)
                && same_body(c.body.as_slice(), d.body.as_slice(), partners, owners)
        }
        _ => false,
    }
}

/// Whether the statements are the same one by one, spans aside, and each call names a task whose
/// partner is the task that the other call names, and the other way round.
#[cycle(bodies)]
pub fn same_body(
    xs: &[Statement],
    ys: &[Statement],
    partners: &[Option<u32>],
    owners: &[Option<u32>],
) -> bool
    ensures { result ≡ spec.same_body partners.now owners.now xs.now ys.now }
{
    let mut left = ys;
    for x in xs {
        let [y, rest @ ..] = left else {
            return false;
        };
        if !same_statement(x, y, partners, owners) {
            return false;
        }
        left = rest;
    }
    left.is_empty()
}
