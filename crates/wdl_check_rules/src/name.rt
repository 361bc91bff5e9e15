//! Names as expressions.

ghost use Rattle.std.specs.Prelude.{◌≡◌, IfOk};
ghost use Rattle.std.specs.Option.{option_copied};
ghost use Rattle.wdl_check_rules.specs.Rules as spec;
ghost use Rattle.wdl_check_rules.specs.Checked as checked;
ghost use Rattle.wdl_check_rules.specs.Conditions as condition;

use crate::fault::CheckFault;
use crate::typed::Typed;
use std::alloc::Global;
use wdl_ast::Ident;
use wdl_names::{NameStack, TypedNames};
use wdl_typed::TExpr;
use wdl_value::{Key, Name, NoMemory};

fn key_of(alloc: Global, first: &Name, second: Option<&Name>) -> Result<Key, NoMemory>
    ensures { IfOk result (λ k. k ≡ spec.key_of first.now (option_copied second.entry)) }
{
    let first = first.copy(alloc)?;
    match second {
        Some(second) => Ok(Key {
            first,
            second: Some(second.copy(alloc)?),
        }),
        None => Ok(Key {
            first,
            second: None,
        }),
    }
}

fn typed_name(alloc: Global, names: &TypedNames, key: Key) -> Result<Option<Typed>, NoMemory>
    ensures { IfOk result (λ x. x ≡ spec.named names.now key) }
{
    let ty = match names.type_of(&key) {
        Some(ty) => ty.copy(alloc)?,
        None => return Ok(None),
    };
    Ok(Some(Typed {
        expr: TExpr::Get(key),
        ty,
    }))
}

/// 307 for the name of a call, 301 for any other that stands for no value.
fn name_code(calls: &NameStack, name: &Name) -> u16
    ensures { result ≡ condition.name_code calls.now name.now }
{
    if calls.has(name) { 307 } else { 301 }
}

/// A name as an expression; `calls` are the names of the calls that are seen.
pub fn check_name(
    alloc: Global,
    names: &TypedNames,
    calls: &NameStack,
    ident: &Ident,
) -> Result<Typed, CheckFault>
    ensures { checked.Gives (checked.name_checked names.now calls.now ident.now) result }
{
    let key = key_of(alloc, &ident.name, None)?;
    match typed_name(alloc, names, key)? {
        Some(typed) => Ok(typed),
        None => Err(CheckFault::Bad {
            code: name_code(calls, &ident.name),
            span: ident.span,
        }),
    }
}

/// `call.output`, where it is one name: where the base is a name and the scope has the two
/// together.
pub fn output_named(
    alloc: Global,
    names: &TypedNames,
    base: Option<&Name>,
    member: &Name,
) -> Result<Option<Typed>, NoMemory>
    ensures { IfOk result (λ x. x ≡ spec.output_named names.now (option_copied base.entry) member.now) }
{
    let Some(base) = base else {
        return Ok(None);
    };
    let key = key_of(alloc, base, Some(member))?;
    typed_name(alloc, names, key)
}

/// Whether the name is that of a call and of no value.
pub fn is_call_alone(
    alloc: Global,
    names: &TypedNames,
    calls: &NameStack,
    name: Option<&Name>,
) -> Result<bool, NoMemory>
    ensures { IfOk result (λ b. b ≡ condition.is_call_alone names.now calls.now (option_copied name.entry)) }
{
    let Some(name) = name else {
        return Ok(false);
    };
    let key = key_of(alloc, name, None)?;
    Ok(names.type_of(&key).is_none() && calls.has(name))
}
