//! Calls of the functions that write files, where one may stand.

ghost use Rattle.std.specs.Prelude.{◌≡◌, option_map};
ghost use Rattle.wdl_check_types.specs.Outcome as outcome;
ghost use Rattle.wdl_check_decls.specs.Expressions as seen;
ghost use Rattle.wdl_check_decls.specs.Writes as spec;
ghost use Rattle.wdl_check_decls.specs.WriteCalls.{call_of};

use crate::expression::check_in;
use crate::seeing::Seeing;
use std::alloc::Global;
use wdl_ast::{Expr, Ident, ListItem};
use wdl_check_rules::{CheckFault, Parts, Typed, apply_at};
use wdl_check_types::from_to;
use wdl_names::TypedNames;
use wdl_value::{Func, Span};

/// A call of a function that writes a file.
#[derive(Drop)]
pub struct WriteCall<'a> {
    pub func: Func,
    pub arguments: &'a [ListItem<Expr>],
    pub span: Span,
}

fn write_func(name: &Ident) -> Option<Func>
    ensures { result ≡ spec.write_func name.now.name }
{
    match name.name.as_str() {
        "write_lines" => Some(Func::WriteLines),
        "write_tsv" => Some(Func::WriteTsv),
        "write_map" => Some(Func::WriteMap),
        _ => None,
    }
}

/// The call of a function that writes a file, if the expression is one, parentheses round it aside.
#[tactic(auto, using(crate::proofs::WriteLaws::equations))]
fn write_call(e: &Expr) -> Option<WriteCall<'_>>
    ensures { option_map call_of result ≡ spec.write_call e.now }
{
    match e {
        Expr::Group { inner, .. } => write_call(inner.get()),
        Expr::Call {
            name,
            arguments,
            closing,
            ..
        } => Some(WriteCall {
            func: write_func(name)?,
            arguments: arguments.as_slice(),
            span: from_to(name.span, *closing),
        }),
        _ => None,
    }
}

/// The function with its argument: 305 where it takes no such argument.
fn apply_to(alloc: Global, func: Func, argument: Typed, span: Span) -> Result<Typed, CheckFault>
    ensures { outcome.Answers (spec.applied func span argument) result }
{
    let mut arguments = Parts::new(alloc);
    arguments.push(argument)?;
    apply_at(alloc, func, arguments, span)
}

fn check_write(
    alloc: Global,
    seeing: &Seeing,
    names: &TypedNames,
    placeholder: bool,
    call: &WriteCall,
) -> Result<Typed, CheckFault>
    ensures { outcome.Answers (spec.call_typed (seen.world seeing.now) names.now placeholder (call_of call.now)) result }
{
    let [argument] = call.arguments else {
        return Err(CheckFault::Bad {
            code: 305,
            span: call.span,
        });
    };
    let typed = check_in(alloc, seeing, names, false, placeholder, &argument.item)?;
    apply_to(alloc, call.func, typed, call.span)
}

/// The typing of an expression that may be, as a whole, a call of a function that writes a file
/// (OpenWDL 1.1, "Standard Library"). `placeholder` inside a placeholder.
pub fn check_in_place(
    alloc: Global,
    seeing: &Seeing,
    names: &TypedNames,
    placeholder: bool,
    e: &Expr,
) -> Result<Typed, CheckFault>
    ensures { outcome.Answers (spec.placed_typed (seen.world seeing.now) names.now placeholder e.now) result }
{
    match write_call(e) {
        Some(call) => check_write(alloc, seeing, names, placeholder, &call),
        None => check_in(alloc, seeing, names, false, placeholder, e),
    }
}
