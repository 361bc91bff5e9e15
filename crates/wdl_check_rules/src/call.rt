//! Calls of functions, given their typed arguments.

ghost use Rattle.std.specs.Prelude.{◌≡◌, IfOk, map};
ghost use Rattle.wdl_check_rules.specs.Functions as name;
ghost use Rattle.wdl_check_rules.specs.Rules as spec;
ghost use Rattle.wdl_check_rules.specs.Checked as checked;

use crate::fault::CheckFault;
use crate::parts::Parts;
use crate::typed::{Typed, cast_to};
use sqlite_items::Items;
use std::alloc::Global;
use wdl_ast::Ident;
use wdl_typed::TExpr;
use wdl_types::{FuncTyping, function_type};
use wdl_value::{Func, NoMemory, Ty};

/// The functions by their names.
const FUNCTIONS: [(&str, Func); 34] = [
    ("min", Func::Min),
    ("max", Func::Max),
    ("length", Func::Length),
    ("range", Func::Range),
    ("transpose", Func::Transpose),
    ("cross", Func::Cross),
    ("zip", Func::Zip),
    ("unzip", Func::Unzip),
    ("flatten", Func::Flatten),
    ("prefix", Func::Prefix),
    ("suffix", Func::Suffix),
    ("quote", Func::Quote),
    ("squote", Func::Squote),
    ("sep", Func::Sep),
    ("as_pairs", Func::AsPairs),
    ("as_map", Func::AsMap),
    ("keys", Func::Keys),
    ("collect_by_key", Func::CollectByKey),
    ("defined", Func::Defined),
    ("select_first", Func::SelectFirst),
    ("select_all", Func::SelectAll),
    ("basename", Func::Basename),
    ("stdout", Func::Stdout),
    ("stderr", Func::Stderr),
    ("glob", Func::Glob),
    ("read_string", Func::ReadString),
    ("read_lines", Func::ReadLines),
    ("read_int", Func::ReadInt),
    ("read_boolean", Func::ReadBoolean),
    ("read_tsv", Func::ReadTsv),
    ("read_map", Func::ReadMap),
    ("write_lines", Func::WriteLines),
    ("write_tsv", Func::WriteTsv),
    ("write_map", Func::WriteMap),
];

fn func_among(mut functions: &[(&str, Func)], word: &str) -> Option<Func>
    ensures { result ≡ name.func_among (map (λ f. (f.0.now, f.1)) functions.entry.now) word.now }
{
    while let [first, rest @ ..] = functions {
        if first.0 == word {
            return Some(first.1);
        }
        functions = rest;
    }
    None
}

/// The function of that name.
#[tactic(auto, unfolding(crate::specs::Functions::functions))]
pub fn func_of(word: &str) -> Option<Func>
    ensures { result ≡ name.func_of word.now }
{
    func_among(&FUNCTIONS, word)
}

/// The function that a name calls, where it may stand: 302 where there is none, 312 where it writes
/// a file, 309 where it reads one and the scope has no outputs.
pub fn callee(ident: &Ident, outputs: bool) -> Result<Func, CheckFault>
    ensures { result ≡ checked.callee_checked outputs ident.now.span (name.func_of ident.now.name) }
{
    let span = ident.span;
    let Some(func) = func_of(ident.name.as_str()) else {
        return Err(CheckFault::Bad { code: 302, span });
    };
    if func.writes() {
        return Err(CheckFault::Bad { code: 312, span });
    }
    if func.reads() && !outputs {
        return Err(CheckFault::Bad { code: 309, span });
    }
    Ok(func)
}

fn types_of(alloc: Global, args: &[Typed]) -> Result<Items<Ty>, NoMemory>
    ensures { IfOk result (λ ts. ts ≡ spec.types_of args.now) }
{
    let mut types = Items::new(alloc);
    for arg in args {
        types.push(arg.ty.copy(alloc)?)?;
    }
    Ok(types)
}

fn cast_args(alloc: Global, params: &[Ty], args: Parts<Typed>) -> Result<Items<TExpr>, NoMemory>
    ensures { IfOk result (λ es. es ≡ spec.cast_args params.now args) }
{
    let mut rest = args.into_deque();
    let mut done = Items::new(alloc);
    for param in params {
        match rest.pop_front() {
            Some(arg) => done.push(cast_to(alloc, arg, param)?)?,
            None => return Ok(done),
        }
    }
    Ok(done)
}

/// A function with its arguments, which stand at the types of its row. None where it has no row for
/// their types.
pub fn apply(alloc: Global, func: Func, args: Parts<Typed>) -> Result<Option<Typed>, NoMemory>
    ensures { IfOk result (λ t. t ≡ spec.apply_of func args) }
{
    let types = types_of(alloc, args.as_slice())?;
    let Some(
        FuncTyping {
            args: params,
            result,
        },
    ) = function_type(alloc, func, types.as_slice())?
    else {
        return Ok(None);
    };
    let args = cast_args(alloc, params.as_slice(), args)?;
    Ok(Some(Typed {
        expr: TExpr::Apply(func, args),
        ty: result,
    }))
}
