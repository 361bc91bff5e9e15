//! The typing of an expression.

ghost use Rattle.std.specs.Prelude.{Ok, true};
ghost use Rattle.wdl_check_rules.specs.Checked as spec;
ghost use Rattle.wdl_check_rules.specs.Conditions as condition;
ghost use Rattle.wdl_check_rules.specs.Locals as local;
ghost use Rattle.wdl_check_rules.specs.Rules as rule;
ghost use Rattle.wdl_check_rules.specs.Scopes.{scope_of};
ghost use Rattle.wdl_check_rules.specs.Spans as place;

use sqlite_items::{Boxed, Items};
use std::alloc::Global;
use wdl_ast::{
    BinaryOperator, Expr, Ident, ListItem, MapEntry, MemberEntry, PlaceholderOptions, StringPart,
};
use wdl_check_rules::{
    CheckFault, MemberValue, Parts, Scope, Typed, apply_at, binary_at, callee, check_name,
    choose_at, condition_at, first_stray, given_value, hole_at, int_literal, is_call_alone,
    item_at, list_at, literal, map_at, member_at, name_of, output_named, pair, plain_text, span_of,
    string_literal, string_of_parts, struct_literal, struct_named, unary_at,
};
use wdl_typed::{TExpr, TPair, TPart};
use wdl_value::{Span, Ty, Value};

/// The typing of an expression in a scope, by whether it stands in a placeholder.
#[cycle(check)]
#[tactic(auto, using(wdl_check_laws::proofs::CheckedLaws::equations))]
pub fn check(alloc: Global, e: &Expr, scope: &Scope, placeholder: bool) -> Result<Typed, CheckFault>
    ensures { spec.Gives (spec.checked (scope_of scope.now) e.now placeholder) result }
{
    match e {
        Expr::If {
            condition: c,
            accepted,
            refused,
            ..
        } => {
            let b = check_condition(alloc, c.get(), scope, placeholder)?;
            let x = check(alloc, accepted.get(), scope, placeholder)?;
            after_accepted(alloc, refused.get(), b, x, span_of(e), scope, placeholder)
        }
        Expr::Binary {
            left,
            operator,
            right,
            ..
        } => {
            let x = check(alloc, left.get(), scope, placeholder)?;
            after_left(
                alloc,
                right.get(),
                *operator,
                x,
                span_of(e),
                scope,
                placeholder,
            )
        }
        Expr::Unary {
            operator,
            operand,
            ..
        } => {
            let x = check(alloc, operand.get(), scope, placeholder)?;
            unary_at(alloc, *operator, x, span_of(e))
        }
        Expr::Member { base, name, .. } => {
            check_member(alloc, base.get(), name, span_of(e), scope, placeholder)
        }
        Expr::Index { base, index, .. } => {
            let x = check(alloc, base.get(), scope, placeholder)?;
            after_base(alloc, index.get(), x, span_of(e), scope, placeholder)
        }
        Expr::True(_) => Ok(literal(Value::Bool(true), Ty::Bool)),
        Expr::False(_) => Ok(literal(Value::Bool(false), Ty::Bool)),
        Expr::None(_) => Ok(literal(Value::Absent, Ty::Absent)),
        Expr::Int { value, span } => int_literal(*value, *span),
        Expr::Str(string) => check_string(alloc, string.parts.as_slice(), scope),
        Expr::Name(ident) => check_name(alloc, scope.names, scope.calls, ident),
        Expr::Call {
            name,
            arguments,
            ..
        } => check_call(
            alloc,
            arguments.as_slice(),
            name,
            span_of(e),
            scope,
            placeholder,
        ),
        Expr::Group { inner, .. } => check(alloc, inner.get(), scope, placeholder),
        Expr::Pair { left, right, .. } => {
            let x = check(alloc, left.get(), scope, placeholder)?;
            after_first(alloc, right.get(), x, scope, placeholder)
        }
        Expr::List { items, .. } => {
            let items = check_items(alloc, items.as_slice(), scope, placeholder)?;
            list_at(alloc, items, span_of(e))
        }
        Expr::Map { entries, .. } => {
            let rows = check_entries(alloc, entries.as_slice(), scope, placeholder)?;
            map_at(alloc, rows, span_of(e))
        }
        Expr::Struct { name, members, .. } => {
            check_struct(alloc, members.as_slice(), name, scope, placeholder)
        }
    }
}

/// The branch of an `if` that is refused, after its condition and the accepted branch: 310 where
/// the two have no join.
#[cycle(check)]
fn after_accepted(
    alloc: Global,
    refused: &Expr,
    condition: Boxed<TExpr>,
    accepted: Typed,
    span: Span,
    scope: &Scope,
    placeholder: bool,
) -> Result<Typed, CheckFault>
    ensures { spec.Gives (spec.then_ (spec.checked (scope_of scope.now) refused.now placeholder) (λ y. spec.or_bad 310 span (rule.choose_of condition accepted y))) result }
{
    let refused = check(alloc, refused, scope, placeholder)?;
    choose_at(alloc, condition, accepted, refused, span)
}

/// The right operand of an operator, after the left one: 304 where the table has no row for the
/// two.
#[cycle(check)]
fn after_left(
    alloc: Global,
    right: &Expr,
    operator: BinaryOperator,
    left: Typed,
    span: Span,
    scope: &Scope,
    placeholder: bool,
) -> Result<Typed, CheckFault>
    ensures { spec.Gives (spec.then_ (spec.checked (scope_of scope.now) right.now placeholder) (λ y. spec.or_bad 304 span (rule.binary_of operator placeholder left y))) result }
{
    let right = check(alloc, right, scope, placeholder)?;
    binary_at(alloc, operator, placeholder, left, right, span)
}

/// The index, after what it stands behind: 304 where that has no such item.
#[cycle(check)]
fn after_base(
    alloc: Global,
    index: &Expr,
    base: Typed,
    span: Span,
    scope: &Scope,
    placeholder: bool,
) -> Result<Typed, CheckFault>
    ensures { spec.Gives (spec.then_ (spec.checked (scope_of scope.now) index.now placeholder) (λ i. spec.or_bad 304 span (rule.item_of base i))) result }
{
    let index = check(alloc, index, scope, placeholder)?;
    item_at(alloc, base, index, span)
}

/// The right part of a pair, after the left one.
#[cycle(check)]
fn after_first(
    alloc: Global,
    second: &Expr,
    first: Typed,
    scope: &Scope,
    placeholder: bool,
) -> Result<Typed, CheckFault>
    ensures { spec.Gives (spec.then_ (spec.checked (scope_of scope.now) second.now placeholder) (λ y. Ok (rule.pair_of first y))) result }
{
    let second = check(alloc, second, scope, placeholder)?;
    Ok(pair(alloc, first, second)?)
}

/// A string, with placeholders or without.
#[cycle(check)]
fn check_string(
    alloc: Global,
    parts: &[StringPart<Expr>],
    scope: &Scope,
) -> Result<Typed, CheckFault>
    ensures { spec.Gives (spec.string_checked (rule.plain_text parts.now) place.span_of (spec.checked (scope_of scope.now)) parts.now) result }
{
    match plain_text(alloc, parts)? {
        Some(text) => Ok(string_literal(text)),
        None => Ok(string_of_parts(check_parts(alloc, parts, scope)?)),
    }
}

/// A call of a function: 305 where it has no row for the types of its arguments.
#[cycle(check)]
fn check_call(
    alloc: Global,
    arguments: &[ListItem<Expr>],
    name: &Ident,
    span: Span,
    scope: &Scope,
    placeholder: bool,
) -> Result<Typed, CheckFault>
    ensures { spec.Gives (spec.call_checked (scope_of scope.now) name.now span (spec.items_checked (spec.checked (scope_of scope.now)) arguments.now placeholder)) result }
{
    let func = callee(name, scope.outputs)?;
    let args = check_items(alloc, arguments, scope, placeholder)?;
    apply_at(alloc, func, args, span)
}

/// The condition of an `if`: 304 where it is no Boolean.
#[cycle(check)]
fn check_condition(
    alloc: Global,
    e: &Expr,
    scope: &Scope,
    placeholder: bool,
) -> Result<Boxed<TExpr>, CheckFault>
    ensures { spec.Gives (spec.condition_checked (place.span_of e.now) (spec.checked (scope_of scope.now) e.now placeholder)) result }
{
    let typed = check(alloc, e, scope, placeholder)?;
    condition_at(alloc, typed, span_of(e))
}

/// A member of an expression, or an output of a call, where the two are one name.
#[cycle(check)]
fn check_member(
    alloc: Global,
    base: &Expr,
    name: &Ident,
    whole: Span,
    scope: &Scope,
    placeholder: bool,
) -> Result<Typed, CheckFault>
    ensures { spec.Gives (spec.member_checked (scope_of scope.now) (rule.output_named scope.now.names.now (place.name_of base.now) name.now.name) (place.name_of base.now) name.now whole (spec.checked (scope_of scope.now) base.now placeholder)) result }
{
    match output_named(alloc, scope.names, name_of(base), &name.name)? {
        Some(typed) => Ok(typed),
        None => check_part(alloc, base, name, whole, scope, placeholder),
    }
}

/// A member of an expression: 301 where the base is the name of a call alone, 306 where it has no
/// such member.
#[cycle(check)]
fn check_part(
    alloc: Global,
    base: &Expr,
    name: &Ident,
    whole: Span,
    scope: &Scope,
    placeholder: bool,
) -> Result<Typed, CheckFault>
    ensures { spec.Gives (spec.base_checked (scope_of scope.now) (condition.is_call_alone scope.now.names.now scope.now.calls.now (place.name_of base.now)) name.now whole (spec.checked (scope_of scope.now) base.now placeholder)) result }
{
    if is_call_alone(alloc, scope.names, scope.calls, name_of(base))? {
        return Err(CheckFault::Bad {
            code: 301,
            span: whole,
        });
    }
    let typed = check(alloc, base, scope, placeholder)?;
    member_at(alloc, scope.structs, name, typed)
}

/// The typings of arguments or items, in their order.
#[cycle(check)]
fn check_items(
    alloc: Global,
    items: &[ListItem<Expr>],
    scope: &Scope,
    placeholder: bool,
) -> Result<Parts<Typed>, CheckFault>
    ensures { spec.Gives (spec.items_checked (spec.checked (scope_of scope.now)) items.now placeholder) result }
{
    let mut done = Parts::new(alloc);
    for item in items {
        done.push(check(alloc, &item.item, scope, placeholder)?)?;
    }
    Ok(done)
}

/// The typings of the keys and values of a map literal.
#[cycle(check)]
fn check_entries(
    alloc: Global,
    entries: &[ListItem<MapEntry<Expr>>],
    scope: &Scope,
    placeholder: bool,
) -> Result<Parts<TPair<Typed>>, CheckFault>
    ensures { spec.Gives (spec.entries_checked (spec.checked (scope_of scope.now)) entries.now placeholder) result }
{
    let mut done = Parts::new(alloc);
    for entry in entries {
        let key = check(alloc, &entry.item.key, scope, placeholder)?;
        let value = check(alloc, &entry.item.value, scope, placeholder)?;
        done.push(TPair { key, value })?;
    }
    Ok(done)
}

/// The parts of a string with their placeholders: 308 where one does not take the type of its
/// expression.
#[cycle(check)]
fn check_parts(
    alloc: Global,
    parts: &[StringPart<Expr>],
    scope: &Scope,
) -> Result<Items<TPart<TExpr>>, CheckFault>
    ensures { spec.Gives (spec.parts_checked place.span_of (spec.checked (scope_of scope.now)) parts.now) result }
{
    let mut done = Items::new(alloc);
    for part in parts {
        match part {
            StringPart::Chars(chars) => done.push(TPart::Chars(chars.text.copy(alloc)?))?,
            StringPart::Placeholder(hole) => {
                let part = check_hole(alloc, &hole.expr, &hole.options, scope)?;
                done.push(part)?;
            }
        }
    }
    Ok(done)
}

#[cycle(check)]
fn check_hole(
    alloc: Global,
    e: &Expr,
    options: &PlaceholderOptions,
    scope: &Scope,
) -> Result<TPart<TExpr>, CheckFault>
    ensures { spec.Gives (spec.then_ (spec.checked (scope_of scope.now) e.now true) (λ x. spec.or_bad 308 (place.span_of e.now) (rule.hole_of (rule.choice_of options.now) x))) result }
{
    let typed = check(alloc, e, scope, true)?;
    hole_at(alloc, options, typed, span_of(e))
}

/// A struct literal: 329 where there is no such struct, 310 at a name that it lacks or that stands
/// before.
#[cycle(check)]
fn check_struct(
    alloc: Global,
    entries: &[ListItem<MemberEntry<Expr>>],
    name: &Ident,
    scope: &Scope,
    placeholder: bool,
) -> Result<Typed, CheckFault>
    ensures { spec.Gives (spec.literal_checked place.span_of (spec.checked (scope_of scope.now)) (local.struct_named scope.now.structs.now (local.stands_for scope.now.locals.now) name.now.name) name.now entries.now placeholder) result }
{
    let Some(def) = struct_named(scope.structs, scope.locals, &name.name) else {
        return Err(CheckFault::Bad {
            code: 329,
            span: name.span,
        });
    };
    if let Some(span) = first_stray(alloc, def.members.as_slice(), entries)? {
        return Err(CheckFault::Bad { code: 310, span });
    }
    let given = check_members(alloc, entries, scope, placeholder)?;
    struct_literal(alloc, name.span, def, given)
}

#[cycle(check)]
fn check_members(
    alloc: Global,
    entries: &[ListItem<MemberEntry<Expr>>],
    scope: &Scope,
    placeholder: bool,
) -> Result<Parts<MemberValue>, CheckFault>
    ensures { spec.Gives (spec.members_checked place.span_of (spec.checked (scope_of scope.now)) entries.now placeholder) result }
{
    let mut done = Parts::new(alloc);
    for entry in entries {
        let value = check(alloc, &entry.item.value, scope, placeholder)?;
        done.push(given_value(alloc, &entry.item, value)?)?;
    }
    Ok(done)
}
