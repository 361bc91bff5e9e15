ghost use Rattle.std.specs.Prelude.{◌≡◌, ◌<◌, ◌≤◌, ◌++◌, [], IfOk, IsErrOf, OnOk, length, false};
ghost use Rattle.wdl_base.specs.Plain.{has_nul};
ghost use Rattle.wdl_print.specs.Printed as spec;
ghost use Rattle.wdl_print.specs.declared.fault.PrintFault.TheVariants.{TooLong};

use crate::fault::PrintFault;
use crate::inside::{Open, Opened};
use crate::spelling::push_spelling;
use std::alloc::Global;
use wdl_ast::{Document, Kind, Mark, Token, tokens_of};
use wdl_value::{NoMemory, Text};

/// The bytes that the text of a document may have.
pub const PRINT_LIMIT: usize = 1_048_576;

/// Whether a line ends behind such a token, where it stands outside strings and commands.
fn ends_line(kind: &Kind) -> bool
    ensures { result ≡ spec.ends_line kind.now }
{
    matches!(
        kind,
        Kind::Mark(Mark::OpenBrace) | Kind::Mark(Mark::CloseBrace) | Kind::CommandClose
    )
}

fn blank_before(rest: &[Token]) -> &'static str
    ensures value { result.now ≡ spec.blank_before rest.now }
    ensures plain { has_nul result.now ≡ false }
{
    match rest {
        [] => "",
        [_, ..] => " ",
    }
}

/// What stands between a token and the rest, by the innermost that is open there.
fn gap(innermost: Option<Open>, kind: &Kind, rest: &[Token]) -> &'static str
    ensures value { result.now ≡ spec.gap innermost kind.now rest.now }
    ensures plain { has_nul result.now ≡ false }
{
    match innermost {
        None if ends_line(kind) => "\n",
        None | Some(Open::Placeholder) => blank_before(rest),
        Some(Open::Quoted(_)) | Some(Open::Command(_)) => "",
    }
}

fn push_token(
    alloc: Global,
    text: &mut Text,
    opened: &mut Opened,
    kind: &Kind,
    rest: &[Token],
) -> Result<(), NoMemory>
    ensures { OnOk result (spec.Pushes text.old text.new opened.old opened.new kind.now rest.now) }
{
    push_spelling(alloc, text, opened.innermost(), kind)?;
    opened.pass(kind)?;
    text.push_str(gap(opened.innermost(), kind, rest))
}

fn push_tokens(alloc: Global, text: &mut Text, tokens: &[Token]) -> Result<(), NoMemory>
    ensures { OnOk result (text.new ≡ text.old ++ spec.printed_from [] tokens.now) }
{
    let mut opened = Opened::new(alloc);
    let mut left = tokens;
    while let [token, rest @ ..] = left {
        push_token(alloc, text, &mut opened, &token.kind, rest)?;
        left = rest;
    }
    Ok(())
}

fn tokens_text(alloc: Global, tokens: &[Token]) -> Result<Text, NoMemory>
    ensures { IfOk result (λ text. text ≡ spec.printed tokens.now) }
{
    let mut text = Text::empty(alloc);
    match tokens {
        [] => {}
        [word] => push_spelling(alloc, &mut text, None, &word.kind)?,
        [word, number, rest @ ..] => {
            push_spelling(alloc, &mut text, None, &word.kind)?;
            text.push_str(" ")?;
            push_spelling(alloc, &mut text, None, &number.kind)?;
            text.push_str("\n")?;
            push_tokens(alloc, &mut text, rest)?;
        }
    }
    Ok(text)
}

/// The text of a document: its tokens in order, escaped where they stand in strings, with a line
/// for each brace and each command. It is refused as `TooLong` exactly where it has more than
/// [`PRINT_LIMIT`] bytes. The tokens are listed once, and the text is written in one pass over
/// them. (OpenWDL 1.1: "Document", "Strings", "Command Section".)
pub fn document_text(alloc: Global, document: &Document) -> Result<Text, PrintFault>
    ensures value { IfOk result (λ text. text ≡ spec.printed_document document.now) }
    ensures short { IfOk result (λ text. length text ≤ 1048576) }
    ensures long { IsErrOf result TooLong → 1048576 < length (spec.printed_document document.now) }
{
    let tokens = tokens_of(alloc, document)?;
    let text = tokens_text(alloc, tokens.as_slice())?;
    if text.as_str().len() > PRINT_LIMIT {
        return Err(PrintFault::TooLong);
    }
    Ok(text)
}
