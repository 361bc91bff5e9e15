//! Copies of expressions, with the names of structs as the library has them.

ghost use Rattle.std.specs.Prelude.{◌≡◌, IfOk};
ghost use Rattle.wdl_check_rules.specs.Locals as local;
ghost use Rattle.wdl_copies.specs.Expressions as spec;
ghost use Rattle.wdl_copies.specs.Parts as piece;

use crate::keeping::boxed;
use crate::leaf::{copy_chars, copy_ident, copy_options, library_ident};
use sqlite_items::{Boxed, Items};
use std::alloc::Global;
use wdl_ast::{Expr, ListItem, MapEntry, MemberEntry, Placeholder, StringPart, StringTree};
use wdl_check_rules::Local;
use wdl_names::Indexed;
use wdl_value::NoMemory;

/// A copy of a placeholder with another expression.
fn hole_with(
    alloc: Global,
    hole: &Placeholder<Expr>,
    expr: Expr,
) -> Result<Placeholder<Expr>, NoMemory>
    ensures { IfOk result (λ x. x ≡ piece.hole_with (λ _. expr) hole.now) }
{
    Ok(Placeholder {
        mark: hole.mark,
        opening: hole.opening,
        options: copy_options(alloc, &hole.options)?,
        expr,
        closing: hole.closing,
    })
}

#[cycle(copy_expr)]
#[tactic(auto, using(crate::proofs::RenamedLaws::equations))]
fn boxed_expr(alloc: Global, e: &Expr, locals: &Indexed<Local>) -> Result<Boxed<Expr>, NoMemory>
    ensures { IfOk result (λ x. x ≡ spec.renamed (local.stands_for locals.now) e.now) }
{
    boxed(alloc, copy_expr(alloc, e, locals)?)
}

#[cycle(copy_expr)]
#[tactic(auto, using(crate::proofs::RenamedLaws::equations))]
fn items(
    alloc: Global,
    items: &[ListItem<Expr>],
    locals: &Indexed<Local>,
) -> Result<Items<ListItem<Expr>>, NoMemory>
    ensures { IfOk result (λ xs. xs ≡ piece.items_with (spec.renamed (local.stands_for locals.now)) items.now) }
{
    let mut done = Items::new(alloc);
    for item in items {
        done.push(ListItem {
            item: copy_expr(alloc, &item.item, locals)?,
            comma: item.comma,
        })?;
    }
    Ok(done)
}

#[cycle(copy_expr)]
#[tactic(auto, using(crate::proofs::RenamedLaws::equations))]
fn entries(
    alloc: Global,
    entries: &[ListItem<MapEntry<Expr>>],
    locals: &Indexed<Local>,
) -> Result<Items<ListItem<MapEntry<Expr>>>, NoMemory>
    ensures { IfOk result (λ xs. xs ≡ piece.entries_with (spec.renamed (local.stands_for locals.now)) entries.now) }
{
    let mut done = Items::new(alloc);
    for item in entries {
        let key = copy_expr(alloc, &item.item.key, locals)?;
        let value = copy_expr(alloc, &item.item.value, locals)?;
        let colon = item.item.colon;
        done.push(ListItem {
            item: MapEntry { key, colon, value },
            comma: item.comma,
        })?;
    }
    Ok(done)
}

#[cycle(copy_expr)]
#[tactic(auto, using(crate::proofs::RenamedLaws::equations))]
fn members(
    alloc: Global,
    members: &[ListItem<MemberEntry<Expr>>],
    locals: &Indexed<Local>,
) -> Result<Items<ListItem<MemberEntry<Expr>>>, NoMemory>
    ensures { IfOk result (λ xs. xs ≡ piece.members_with (spec.renamed (local.stands_for locals.now)) members.now) }
{
    let mut done = Items::new(alloc);
    for item in members {
        let value = copy_expr(alloc, &item.item.value, locals)?;
        let name = copy_ident(alloc, &item.item.name)?;
        let colon = item.item.colon;
        done.push(ListItem {
            item: MemberEntry { name, colon, value },
            comma: item.comma,
        })?;
    }
    Ok(done)
}

#[cycle(copy_expr)]
#[tactic(auto, using(crate::proofs::RenamedLaws::equations))]
fn string_parts(
    alloc: Global,
    parts: &[StringPart<Expr>],
    locals: &Indexed<Local>,
) -> Result<Items<StringPart<Expr>>, NoMemory>
    ensures { IfOk result (λ xs. xs ≡ piece.parts_with (spec.renamed (local.stands_for locals.now)) parts.now) }
{
    let mut done = Items::new(alloc);
    for part in parts {
        match part {
            StringPart::Chars(chars) => done.push(StringPart::Chars(copy_chars(alloc, chars)?))?,
            StringPart::Placeholder(hole) => {
                let expr = copy_expr(alloc, &hole.expr, locals)?;
                done.push(StringPart::Placeholder(hole_with(alloc, hole, expr)?))?
            }
        }
    }
    Ok(done)
}

/// A copy of an expression in which each struct literal has the name that its struct has in the
/// library.
#[cycle(copy_expr)]
#[tactic(auto, using(crate::proofs::RenamedLaws::equations))]
pub fn copy_expr(alloc: Global, e: &Expr, locals: &Indexed<Local>) -> Result<Expr, NoMemory>
    ensures { IfOk result (λ x. x ≡ spec.renamed (local.stands_for locals.now) e.now) }
{
    match e {
        Expr::If {
            keyword,
            condition,
            then_word,
            accepted,
            else_word,
            refused,
        } => {
            let condition = boxed_expr(alloc, condition.get(), locals)?;
            let accepted = boxed_expr(alloc, accepted.get(), locals)?;
            Ok(Expr::If {
                keyword: *keyword,
                condition,
                then_word: *then_word,
                accepted,
                else_word: *else_word,
                refused: boxed_expr(alloc, refused.get(), locals)?,
            })
        }
        Expr::Binary {
            left,
            operator,
            sign,
            right,
        } => {
            let left = boxed_expr(alloc, left.get(), locals)?;
            Ok(Expr::Binary {
                left,
                operator: *operator,
                sign: *sign,
                right: boxed_expr(alloc, right.get(), locals)?,
            })
        }
        Expr::Unary {
            operator,
            sign,
            operand,
        } => Ok(Expr::Unary {
            operator: *operator,
            sign: *sign,
            operand: boxed_expr(alloc, operand.get(), locals)?,
        }),
        Expr::Member { base, dot, name } => {
            let base = boxed_expr(alloc, base.get(), locals)?;
            Ok(Expr::Member {
                base,
                dot: *dot,
                name: copy_ident(alloc, name)?,
            })
        }
        Expr::Index {
            base,
            opening,
            index,
            closing,
        } => {
            let base = boxed_expr(alloc, base.get(), locals)?;
            Ok(Expr::Index {
                base,
                opening: *opening,
                index: boxed_expr(alloc, index.get(), locals)?,
                closing: *closing,
            })
        }
        Expr::True(span) => Ok(Expr::True(*span)),
        Expr::False(span) => Ok(Expr::False(*span)),
        Expr::None(span) => Ok(Expr::None(*span)),
        Expr::Int { value, span } => Ok(Expr::Int {
            value: *value,
            span: *span,
        }),
        Expr::Str(string) => Ok(Expr::Str(StringTree {
            quote: string.quote,
            opening: string.opening,
            parts: string_parts(alloc, string.parts.as_slice(), locals)?,
            closing: string.closing,
        })),
        Expr::Name(ident) => Ok(Expr::Name(copy_ident(alloc, ident)?)),
        Expr::Call {
            name,
            opening,
            arguments,
            closing,
        } => {
            let arguments = items(alloc, arguments.as_slice(), locals)?;
            Ok(Expr::Call {
                name: copy_ident(alloc, name)?,
                opening: *opening,
                arguments,
                closing: *closing,
            })
        }
        Expr::Group {
            opening,
            inner,
            closing,
        } => Ok(Expr::Group {
            opening: *opening,
            inner: boxed_expr(alloc, inner.get(), locals)?,
            closing: *closing,
        }),
        Expr::Pair {
            opening,
            left,
            comma,
            right,
            closing,
        } => {
            let left = boxed_expr(alloc, left.get(), locals)?;
            Ok(Expr::Pair {
                opening: *opening,
                left,
                comma: *comma,
                right: boxed_expr(alloc, right.get(), locals)?,
                closing: *closing,
            })
        }
        Expr::List {
            opening,
            items: list,
            closing,
        } => Ok(Expr::List {
            opening: *opening,
            items: items(alloc, list.as_slice(), locals)?,
            closing: *closing,
        }),
        Expr::Map {
            opening,
            entries: rows,
            closing,
        } => Ok(Expr::Map {
            opening: *opening,
            entries: entries(alloc, rows.as_slice(), locals)?,
            closing: *closing,
        }),
        Expr::Struct {
            name,
            opening,
            members: fields,
            closing,
        } => {
            let fields = members(alloc, fields.as_slice(), locals)?;
            Ok(Expr::Struct {
                name: library_ident(alloc, name, locals)?,
                opening: *opening,
                members: fields,
                closing: *closing,
            })
        }
    }
}
