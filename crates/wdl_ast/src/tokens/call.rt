ghost use Rattle.std.specs.Prelude.{◌≡◌, ◌++◌, OnOk};
ghost use Rattle.wdl_ast.specs.DocumentWords as spec;
ghost use Rattle.wdl_ast.specs.Words as leaf;

use crate::leaf::ListItem;
use crate::token::Mark;
use crate::tokens::list::TokenList;
use crate::tokens::section::push_assigned;
use crate::workflow::{After, Argument, Call, CallBody, CallInputs, CallTarget, Renaming};
use wdl_value::NoMemory;

/// Adds the tokens of `as NAME`, if it is there.
pub fn push_renaming(out: &mut TokenList, renaming: &Option<Renaming>) -> Result<(), NoMemory>
    ensures { OnOk result (out.new ≡ out.old ++ spec.maybe spec.renaming_words renaming.now) }
{
    match renaming {
        Some(renaming) => {
            out.keyword("as", renaming.as_word)?;
            out.ident(&renaming.name)
        }
        None => Ok(()),
    }
}

fn push_target(out: &mut TokenList, target: &CallTarget) -> Result<(), NoMemory>
    ensures { OnOk result (out.new ≡ out.old ++ spec.target_words target.now) }
{
    out.ident(&target.first)?;
    match &target.second {
        Some(member) => {
            out.mark(Mark::Dot, member.dot)?;
            out.ident(&member.name)
        }
        None => Ok(()),
    }
}

fn push_after(out: &mut TokenList, after: &[After]) -> Result<(), NoMemory>
    ensures { OnOk result (out.new ≡ out.old ++ spec.each spec.after_words after.now) }
{
    for one in after {
        out.keyword("after", one.keyword)?;
        out.ident(&one.name)?;
    }
    Ok(())
}

fn push_arguments(out: &mut TokenList, arguments: &[ListItem<Argument>]) -> Result<(), NoMemory>
    ensures { OnOk result (out.new ≡ out.old ++ leaf.items_words spec.argument_words arguments.now) }
{
    for argument in arguments {
        out.ident(&argument.item.name)?;
        push_assigned(out, &argument.item.value)?;
        out.optional_mark(Mark::Comma, argument.comma)?;
    }
    Ok(())
}

fn push_call_inputs(out: &mut TokenList, inputs: &Option<CallInputs>) -> Result<(), NoMemory>
    ensures { OnOk result (out.new ≡ out.old ++ spec.maybe spec.call_inputs_words inputs.now) }
{
    match inputs {
        Some(inputs) => {
            out.keyword("input", inputs.keyword)?;
            out.mark(Mark::Colon, inputs.colon)?;
            push_arguments(out, inputs.arguments.as_slice())
        }
        None => Ok(()),
    }
}

fn push_body(out: &mut TokenList, body: &Option<CallBody>) -> Result<(), NoMemory>
    ensures { OnOk result (out.new ≡ out.old ++ spec.maybe spec.call_body_words body.now) }
{
    match body {
        Some(body) => {
            out.mark(Mark::OpenBrace, body.opening)?;
            push_call_inputs(out, &body.inputs)?;
            out.mark(Mark::CloseBrace, body.closing)
        }
        None => Ok(()),
    }
}

/// Adds the tokens of a call.
pub fn push_call(out: &mut TokenList, call: &Call) -> Result<(), NoMemory>
    ensures { OnOk result (out.new ≡ out.old ++ spec.call_words call.now) }
{
    out.keyword("call", call.keyword)?;
    push_target(out, &call.target)?;
    push_renaming(out, &call.alias)?;
    push_after(out, call.after.as_slice())?;
    push_body(out, &call.body)
}
