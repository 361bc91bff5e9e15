//! The outputs of tasks: the standard output, or a file by its name.

ghost use Rattle.std.specs.Prelude.{◌≡◌};
ghost use Rattle.std.specs.Char.{is_ascii_alphanumeric};
ghost use Rattle.std.specs.List.{list_all, list_any};
ghost use Rattle.cwl_image.specs.Expressions as spec;
ghost use Rattle.wdl_typed.specs.declared.expr.TExpr.{out-TExpr};
ghost use Rattle.wdl_value.specs.declared.value.Value.{out-Value};

use crate::types::is_file_type;
use wdl_typed::TExpr;
use wdl_value::{Func, Value};

/// Whether the byte is a letter, a digit, `.`, `_` or `-`.
fn is_file_char(byte: u8) -> bool
    ensures { result ≡ spec.is_file_char byte }
{
    byte.is_ascii_alphanumeric() || byte == b'.' || byte == b'_' || byte == b'-'
}

fn are_file_chars(bytes: &[u8]) -> bool
    ensures { result ≡ list_all spec.is_file_char bytes.now }
{
    bytes.iter().all(|b| is_file_char(*b))
}

fn has_alphanumeric(bytes: &[u8]) -> bool
    ensures { result ≡ list_any is_ascii_alphanumeric bytes.now }
{
    bytes.iter().any(|b| b.is_ascii_alphanumeric())
}

/// Whether the name is one that the job's directory has for other things.
fn is_taken(name: &str) -> bool
    ensures { result ≡ spec.is_taken name.now }
{
    name == "cwl.output.json" || name == "_stdout" || name == "_stderr"
}

/// Whether the text may name an output file: letters, digits, `.`, `_` and `-`, with a letter or a
/// digit among them, and none of the three names that the job's directory has for other things.
fn is_file_name(name: &str) -> bool
    ensures { result ≡ spec.is_file_name name.now }
{
    let bytes = name.as_bytes();
    are_file_chars(bytes) && has_alphanumeric(bytes) && !is_taken(name)
}

/// Whether the value is a text that may name an output file.
fn names_file(x: &Value) -> bool
    ensures { result ≡ spec.names_file_at (out-Value x.now) }
{
    match x {
        Value::Str(s) => is_file_name(s.as_str()),
        _ => false,
    }
}

/// Whether the expression is `stdout()` or the name of an output file, casts aside.
pub fn is_file(e: &TExpr) -> bool
    ensures { result ≡ spec.is_file e.now }
{
    match e {
        TExpr::Lit(x) => names_file(x),
        TExpr::Apply(f, _) => matches!(f, Func::Stdout),
        TExpr::Cast(a, _) => is_file(a.get()),
        _ => false,
    }
}

/// Whether the expression is a string without a placeholder.
fn is_text(e: &TExpr) -> bool
    ensures { result ≡ spec.is_text_layer (out-TExpr e.now) }
{
    matches!(e, TExpr::Lit(Value::Str(_)))
}

/// Whether the expression is a string without a placeholder under its cast to File.
pub fn is_file_literal(e: &TExpr) -> bool
    ensures { result ≡ spec.is_file_literal (out-TExpr e.now) }
{
    match e {
        TExpr::Cast(a, t) => is_text(a.get()) && is_file_type(t),
        _ => false,
    }
}
