//! Copies of the leaves of an expression.

ghost use Rattle.std.specs.Prelude.{◌≡◌, IfOk};
ghost use Rattle.wdl_check_rules.specs.Locals as local;
ghost use Rattle.wdl_copies.specs.Expressions as spec;

use std::alloc::Global;
use wdl_ast::{Chars, Ident, PlaceholderOption, PlaceholderOptions, PlainString};
use wdl_check_rules::{Local, stands_for};
use wdl_names::Indexed;
use wdl_value::NoMemory;

/// A copy of a name where it stands.
pub fn copy_ident(alloc: Global, ident: &Ident) -> Result<Ident, NoMemory>
    ensures { IfOk result (λ c. c ≡ ident.now) }
{
    Ok(Ident {
        name: ident.name.copy(alloc)?,
        span: ident.span,
    })
}

/// The name of a struct as the library has it, where the document knows that struct; else the same
/// name.
pub fn library_ident(
    alloc: Global,
    ident: &Ident,
    locals: &Indexed<Local>,
) -> Result<Ident, NoMemory>
    ensures { IfOk result (λ n. n ≡ spec.renamed_ident (local.stands_for locals.now) ident.now) }
{
    match stands_for(locals, &ident.name) {
        Some(name) => Ok(Ident {
            name: name.copy(alloc)?,
            span: ident.span,
        }),
        None => copy_ident(alloc, ident),
    }
}

/// A copy of characters where they stand.
pub fn copy_chars(alloc: Global, chars: &Chars) -> Result<Chars, NoMemory>
    ensures { IfOk result (λ c. c ≡ chars.now) }
{
    Ok(Chars {
        text: chars.text.copy(alloc)?,
        span: chars.span,
    })
}

fn copy_some(alloc: Global, chars: &Option<Chars>) -> Result<Option<Chars>, NoMemory>
    ensures { IfOk result (λ c. c ≡ chars.now) }
{
    match chars {
        Some(chars) => Ok(Some(copy_chars(alloc, chars)?)),
        None => Ok(None),
    }
}

fn copy_plain(alloc: Global, string: &PlainString) -> Result<PlainString, NoMemory>
    ensures { IfOk result (λ c. c ≡ string.now) }
{
    Ok(PlainString {
        quote: string.quote,
        opening: string.opening,
        chars: copy_some(alloc, &string.chars)?,
        closing: string.closing,
    })
}

fn copy_option(alloc: Global, option: &PlaceholderOption) -> Result<PlaceholderOption, NoMemory>
    ensures { IfOk result (λ c. c ≡ option.now) }
{
    Ok(PlaceholderOption {
        word: option.word,
        assign: option.assign,
        value: copy_plain(alloc, &option.value)?,
    })
}

/// A copy of the options of a placeholder.
pub fn copy_options(
    alloc: Global,
    options: &PlaceholderOptions,
) -> Result<PlaceholderOptions, NoMemory>
    ensures { IfOk result (λ c. c ≡ options.now) }
{
    match options {
        PlaceholderOptions::Plain => Ok(PlaceholderOptions::Plain),
        PlaceholderOptions::Sep(option) => Ok(PlaceholderOptions::Sep(copy_option(alloc, option)?)),
        PlaceholderOptions::Default(option) => {
            Ok(PlaceholderOptions::Default(copy_option(alloc, option)?))
        }
        PlaceholderOptions::TrueFalse(yes, no) => {
            let yes = copy_option(alloc, yes)?;
            Ok(PlaceholderOptions::TrueFalse(yes, copy_option(alloc, no)?))
        }
        PlaceholderOptions::FalseTrue(no, yes) => {
            let no = copy_option(alloc, no)?;
            Ok(PlaceholderOptions::FalseTrue(no, copy_option(alloc, yes)?))
        }
    }
}
