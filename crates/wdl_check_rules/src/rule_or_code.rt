//! What the rule of a form gives, or a code where it gives nothing.

ghost use Rattle.std.specs.Prelude.{◌≡◌};
ghost use Rattle.wdl_check_rules.specs.Checked as spec;
ghost use Rattle.wdl_check_rules.specs.Rules as rule;

use crate::access::{item, member};
use crate::call::apply;
use crate::collection::list;
use crate::fault::CheckFault;
use crate::operator::{binary, choose, condition, unary};
use crate::parts::Parts;
use crate::string::{choice_of, hole};
use crate::typed::Typed;
use sqlite_items::Boxed;
use std::alloc::Global;
use wdl_ast::{BinaryOperator, Ident, PlaceholderOptions, UnaryOperator};
use wdl_names::Indexed;
use wdl_typed::{TExpr, TPart};
use wdl_value::{Func, Span, StructDef};

fn or_bad(found: Option<Typed>, code: u16, span: Span) -> Result<Typed, CheckFault>
    ensures { result ≡ spec.or_bad code span found }
{
    match found {
        Some(typed) => Ok(typed),
        None => Err(CheckFault::Bad { code, span }),
    }
}

/// `if` with its branches, 310 where they have no join.
pub fn choose_at(
    alloc: Global,
    condition: Boxed<TExpr>,
    accepted: Typed,
    refused: Typed,
    span: Span,
) -> Result<Typed, CheckFault>
    ensures { spec.Gives (spec.or_bad 310 span (rule.choose_of condition accepted refused)) result }
{
    or_bad(choose(alloc, condition, accepted, refused)?, 310, span)
}

/// The condition of an `if` in a box, 304 where it is no Boolean.
pub fn condition_at(alloc: Global, typed: Typed, span: Span) -> Result<Boxed<TExpr>, CheckFault>
    ensures { spec.Gives (spec.or_bad 304 span (rule.condition_of typed)) result }
{
    match condition(typed) {
        Some(expr) => Ok(Boxed::new(alloc, expr)?),
        None => Err(CheckFault::Bad { code: 304, span }),
    }
}

/// A placeholder, 308 where it does not take the type of its expression.
pub fn hole_at(
    alloc: Global,
    options: &PlaceholderOptions,
    typed: Typed,
    span: Span,
) -> Result<TPart<TExpr>, CheckFault>
    ensures { spec.Gives (spec.or_bad 308 span (rule.hole_of (rule.choice_of options.now) typed)) result }
{
    let choice = choice_of(alloc, options)?;
    match hole(choice, typed) {
        Some(part) => Ok(part),
        None => Err(CheckFault::Bad { code: 308, span }),
    }
}

/// An operator between two operands, 304 where the table has no row for them.
pub fn binary_at(
    alloc: Global,
    operator: BinaryOperator,
    placeholder: bool,
    left: Typed,
    right: Typed,
    span: Span,
) -> Result<Typed, CheckFault>
    ensures { spec.Gives (spec.or_bad 304 span (rule.binary_of operator placeholder left right)) result }
{
    or_bad(
        binary(alloc, operator, placeholder, left, right)?,
        304,
        span,
    )
}

/// An operator before one operand, 304 where it takes no such operand.
pub fn unary_at(
    alloc: Global,
    operator: UnaryOperator,
    operand: Typed,
    span: Span,
) -> Result<Typed, CheckFault>
    ensures { spec.Gives (spec.or_bad 304 span (rule.unary_of operator operand)) result }
{
    or_bad(unary(alloc, operator, operand)?, 304, span)
}

/// An item of an array or a value of a map, 304 where there is none.
pub fn item_at(alloc: Global, base: Typed, index: Typed, span: Span) -> Result<Typed, CheckFault>
    ensures { spec.Gives (spec.or_bad 304 span (rule.item_of base index)) result }
{
    or_bad(item(alloc, base, index)?, 304, span)
}

/// A member of a pair or of a struct, 306 where there is none.
pub fn member_at(
    alloc: Global,
    structs: &Indexed<StructDef>,
    name: &Ident,
    base: Typed,
) -> Result<Typed, CheckFault>
    ensures { spec.Gives (spec.or_bad 306 name.now.span (rule.member_of structs.now name.now.name base)) result }
{
    or_bad(member(alloc, structs, &name.name, base)?, 306, name.span)
}

/// A list literal, 310 where its items have no join.
pub fn list_at(alloc: Global, items: Parts<Typed>, span: Span) -> Result<Typed, CheckFault>
    ensures { spec.Gives (spec.or_bad 310 span (rule.list_of items)) result }
{
    or_bad(list(alloc, items)?, 310, span)
}

/// A function with its arguments, 305 where it takes no such arguments.
pub fn apply_at(
    alloc: Global,
    func: Func,
    args: Parts<Typed>,
    span: Span,
) -> Result<Typed, CheckFault>
    ensures { spec.Gives (spec.or_bad 305 span (rule.apply_of func args)) result }
{
    or_bad(apply(alloc, func, args)?, 305, span)
}
