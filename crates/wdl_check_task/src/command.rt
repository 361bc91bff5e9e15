//! Commands.

ghost use Rattle.std.specs.Prelude.{◌≡◌, map, option_map, IfOk};
ghost use Rattle.wdl_check_types.specs.Outcome as outcome;
ghost use Rattle.wdl_check_decls.specs.Expressions as seen;
ghost use Rattle.wdl_check_task.specs.Command as spec;

use command_text::dedent;
use std::alloc::Global;
use wdl_ast::{Expr, Placeholder, PlaceholderOptions, StringPart};
use wdl_check_decls::{Seeing, check_in, check_in_place};
use wdl_check_rules::{CheckFault, Typed, hole_at, span_of};
use wdl_names::TypedNames;
use wdl_typed::{TExpr, TPart};
use wdl_value::{Items, NoMemory, Part, Template, Text};

fn check_value(
    alloc: Global,
    seeing: &Seeing,
    names: &TypedNames,
    options: &PlaceholderOptions,
    e: &Expr,
) -> Result<Typed, CheckFault>
    ensures { outcome.Answers (spec.hole_value (seen.world seeing.now) names.now options.now e.now) result }
{
    match options {
        PlaceholderOptions::Plain => check_in_place(alloc, seeing, names, true, e),
        _ => check_in(alloc, seeing, names, false, true, e),
    }
}

fn check_hole(
    alloc: Global,
    seeing: &Seeing,
    names: &TypedNames,
    hole: &Placeholder<Expr>,
) -> Result<TPart<TExpr>, CheckFault>
    ensures { outcome.Answers (spec.hole_typed (seen.world seeing.now) names.now hole.now) result }
{
    let typed = check_value(alloc, seeing, names, &hole.options, &hole.expr)?;
    hole_at(alloc, &hole.options, typed, span_of(&hole.expr))
}

fn template_part(alloc: Global, number: u32, part: &StringPart<Expr>) -> Result<Part, NoMemory>
    ensures { IfOk result (λ p. p ≡ spec.template_part number part.now) }
{
    match part {
        StringPart::Chars(chars) => Ok(Part::Chars(chars.text.copy(alloc)?)),
        StringPart::Placeholder(_) => Ok(Part::Hole(number)),
    }
}

/// The command as a template, in which each placeholder is a hole with the number of the part.
fn template_of(alloc: Global, parts: &[&StringPart<Expr>]) -> Result<Template, NoMemory>
    ensures { IfOk result (λ t. t ≡ spec.template_from 0 (map (λ p. p.now) parts.now)) }
{
    let mut template = Items::new(alloc);
    let mut number: u32 = 0;
    for part in parts {
        template.push(template_part(alloc, number, part)?)?;
        number = number.checked_add(1).ok_or(NoMemory)?;
    }
    Ok(template)
}

/// What stands in the place of a hole.
fn check_placeholder(
    alloc: Global,
    seeing: &Seeing,
    names: &TypedNames,
    part: Option<&&StringPart<Expr>>,
) -> Result<TPart<TExpr>, CheckFault>
    ensures { outcome.Answers (spec.placeholder_typed (seen.world seeing.now) names.now (option_map (λ p. p.now.now) part.entry)) result }
{
    match part {
        Some(StringPart::Placeholder(hole)) => check_hole(alloc, seeing, names, hole),
        _ => Ok(TPart::Chars(Text::empty(alloc))),
    }
}

fn check_part(
    alloc: Global,
    seeing: &Seeing,
    names: &TypedNames,
    parts: &[&StringPart<Expr>],
    part: &Part,
) -> Result<TPart<TExpr>, CheckFault>
    ensures { outcome.Answers (spec.part_typed (seen.world seeing.now) names.now (map (λ p. p.now) parts.now) part.now) result }
{
    match part {
        Part::Chars(text) => Ok(TPart::Chars(text.copy(alloc)?)),
        Part::Hole(number) => check_placeholder(alloc, seeing, names, parts.get(*number as usize)),
    }
}

fn check_parts(
    alloc: Global,
    seeing: &Seeing,
    names: &TypedNames,
    parts: &[&StringPart<Expr>],
    template: &[Part],
) -> Result<Items<TPart<TExpr>>, CheckFault>
    ensures { outcome.Answers (spec.parts_typed (seen.world seeing.now) names.now (map (λ p. p.now) parts.now) template.now) result }
{
    let mut command = Items::new(alloc);
    for part in template {
        command.push(check_part(alloc, seeing, names, parts, part)?)?;
    }
    Ok(command)
}

/// A command without its common indent, with typed placeholders. A placeholder without options may
/// be a call of a function that writes a file (OpenWDL 1.1, "Command Section"). `Bad` comes exactly
/// where a placeholder is not typed; the code's condition holds at the span.
pub fn check_command(
    alloc: Global,
    seeing: &Seeing,
    names: &TypedNames,
    parts: &[&StringPart<Expr>],
) -> Result<Items<TPart<TExpr>>, CheckFault>
    ensures { outcome.Answers (spec.command_typed (seen.world seeing.now) names.now (map (λ p. p.now) parts.now)) result }
{
    let template = template_of(alloc, parts)?;
    let dedented = dedent(alloc, &template)?;
    check_parts(alloc, seeing, names, parts, dedented.as_slice())
}
