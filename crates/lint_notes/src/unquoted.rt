//! Files that stand in a command outside of quotes.

use crate::lint::{Lint, Warning};
use crate::names::Names;
use crate::shape::shape_of;
use wdl_ast::{Expr, Placeholder, PlaceholderOptions};
use wdl_names::Indexed;
use wdl_value::{Span, StructDef};

/// Where a name stands, or a member behind one; nothing of any other expression.
fn reference_span(e: &Expr) -> Option<Span> {
    match e {
        Expr::Name(ident) => Some(ident.span),
        Expr::Member { base, name, .. } => {
            let Span { doc, start, .. } = reference_span(base.get())?;
            let end = name.span.end;
            Some(Span { doc, start, end })
        }
        _ => None,
    }
}

/// Whether a name stands for a file that a function of the language writes, whose name has no
/// blank.
fn is_written(names: &Names, e: &Expr) -> bool {
    match e {
        Expr::Name(ident) => names.get(ident.name.as_str()).written,
        _ => false,
    }
}

/// The warning on a placeholder of a command outside of quotes.
pub fn unquoted<'w>(
    structs: &Indexed<StructDef>,
    names: &Names,
    hole: &Placeholder<Expr>,
) -> Option<Warning<'w>> {
    let reference = reference_span(&hole.expr)?;
    let shape = shape_of(structs, names, &hole.expr)?;
    let lint = match hole.options {
        PlaceholderOptions::Plain | PlaceholderOptions::Default(_) if shape.is_file() => {
            Lint::UnquotedFile
        }
        PlaceholderOptions::Sep(_) if shape.is_files() => Lint::UnquotedFiles(reference),
        _ => return None,
    };
    if is_written(names, &hole.expr) {
        return None;
    }
    let Span { doc, start, .. } = hole.opening;
    let end = hole.closing.end;
    Some(Warning {
        span: Span { doc, start, end },
        lint,
    })
}
