//! Where types, declarations and statements stand.

ghost use Rattle.std.specs.Prelude.{◌≡◌};
ghost use Rattle.wdl_check_rules.specs.Spans as spec;
ghost use Rattle.wdl_check_types.specs.Places as place;

use wdl_ast::{After, BaseType, Call, Declaration, Ident, InputDeclaration, Statement, TypeTree};
use wdl_check_rules::span_of;
use wdl_value::Span;

/// From the first byte of the one to the last byte of the other.
pub fn from_to(first: Span, last: Span) -> Span
    ensures { result ≡ spec.joined first last }
{
    Span {
        doc: first.doc,
        start: first.start,
        end: last.end,
    }
}

/// The first token of a written type.
pub fn type_start(tree: &TypeTree) -> Span
    ensures { result ≡ place.type_start tree.now }
{
    match &tree.base {
        BaseType::Boolean(span)
        | BaseType::Int(span)
        | BaseType::Str(span)
        | BaseType::File(span) => *span,
        BaseType::Struct(ident) => ident.span,
        BaseType::Array { word, .. } | BaseType::Map { word, .. } | BaseType::Pair { word, .. } => {
            *word
        }
    }
}

/// Where an input stands.
pub fn input_span(input: &InputDeclaration) -> Span
    ensures { result ≡ place.input_span input.now }
{
    let start = type_start(&input.ty);
    match &input.preset {
        Some(assigned) => from_to(start, span_of(&assigned.value)),
        None => from_to(start, input.name.span),
    }
}

/// Where a declaration stands.
pub fn declaration_span(declaration: &Declaration) -> Span
    ensures { result ≡ place.declaration_span declaration.now }
{
    from_to(type_start(&declaration.ty), span_of(&declaration.value))
}

/// The name of a call: its alias, or else the last word of its target (OpenWDL 1.1, "Call
/// Statement").
pub fn call_ident(call: &Call) -> &Ident
    ensures { result.now ≡ place.call_ident call.now }
{
    if let Some(renaming) = &call.alias {
        return &renaming.name;
    }
    match &call.target.second {
        Some(member) => &member.name,
        None => &call.target.first,
    }
}

/// The last token of what stands behind `after`, or this one.
fn last_after(last: Span, after: &[After]) -> Span
    ensures { result ≡ place.last_after last after.now }
{
    let mut end = last;
    for word in after {
        end = word.name.span;
    }
    end
}

/// Where a call stands.
pub fn call_span(call: &Call) -> Span
    ensures { result ≡ place.call_span call.now }
{
    match &call.body {
        Some(body) => from_to(call.keyword, body.closing),
        None => {
            let last = last_after(call_ident(call).span, call.after.as_slice());
            from_to(call.keyword, last)
        }
    }
}

/// Where a statement stands.
pub fn statement_span(statement: &Statement) -> Span
    ensures { result ≡ place.statement_span statement.now }
{
    match statement {
        Statement::Declaration(declaration) => declaration_span(declaration),
        Statement::Call(call) => call_span(call),
        Statement::Scatter(block) => from_to(block.keyword, block.closing),
        Statement::Conditional(block) => from_to(block.keyword, block.closing),
    }
}
