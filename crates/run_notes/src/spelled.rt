//! Expressions as a document may spell them.

use wdl_value::{Func, Op};

/// Returns an operator with a blank on each side.
pub(crate) fn operator(op: Op) -> &'static str {
    match op {
        Op::Mul => " * ",
        Op::Div => " / ",
        Op::Rem => " % ",
        Op::Add | Op::AddMaybe => " + ",
        Op::Sub => " - ",
        Op::Lt => " < ",
        Op::Le => " <= ",
        Op::Gt => " > ",
        Op::Ge => " >= ",
        Op::Eq => " == ",
        Op::Ne => " != ",
        Op::And => " && ",
        Op::Or => " || ",
    }
}

/// Returns the name of a function that reads or writes, or sees what a command left.
fn file_function(function: Func) -> &'static str {
    match function {
        Func::Stdout => "stdout",
        Func::Stderr => "stderr",
        Func::Glob => "glob",
        Func::ReadString => "read_string",
        Func::ReadLines => "read_lines",
        Func::ReadInt => "read_int",
        Func::ReadBoolean => "read_boolean",
        Func::ReadTsv => "read_tsv",
        Func::ReadMap => "read_map",
        Func::WriteLines => "write_lines",
        Func::WriteTsv => "write_tsv",
        Func::WriteMap => "write_map",
        _ => "..",
    }
}

/// Returns the name of a function.
pub(crate) fn function(function: Func) -> &'static str {
    match function {
        Func::Min => "min",
        Func::Max => "max",
        Func::Length => "length",
        Func::Range => "range",
        Func::Transpose => "transpose",
        Func::Cross => "cross",
        Func::Zip => "zip",
        Func::Unzip => "unzip",
        Func::Flatten => "flatten",
        Func::Prefix => "prefix",
        Func::Suffix => "suffix",
        Func::Quote => "quote",
        Func::Squote => "squote",
        Func::Sep => "sep",
        Func::AsPairs => "as_pairs",
        Func::AsMap => "as_map",
        Func::Keys => "keys",
        Func::CollectByKey => "collect_by_key",
        Func::Defined => "defined",
        Func::SelectFirst => "select_first",
        Func::SelectAll => "select_all",
        Func::Basename => "basename",
        other => file_function(other),
    }
}
