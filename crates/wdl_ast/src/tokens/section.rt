ghost use Rattle.std.specs.Prelude.{◌≡◌, ◌++◌, OnOk, false};
ghost use Rattle.wdl_base.specs.Plain.{has_nul};
ghost use Rattle.wdl_ast.specs.DocumentWords as spec;

use crate::meta::MetaSection;
use crate::section::{Assigned, Declaration, InputDeclaration, InputSection, OutputSection};
use crate::token::Mark;
use crate::tokens::expr::push_expr;
use crate::tokens::list::TokenList;
use crate::tokens::meta::push_metadata;
use crate::tokens::type_tree::push_type;
use wdl_value::NoMemory;

/// Adds the tokens of a declaration with its expression.
pub fn push_declaration(out: &mut TokenList, declaration: &Declaration) -> Result<(), NoMemory>
    ensures { OnOk result (out.new ≡ out.old ++ spec.declaration_words declaration.now) }
{
    push_type(out, &declaration.ty)?;
    out.ident(&declaration.name)?;
    out.mark(Mark::Assign, declaration.assign)?;
    push_expr(out, &declaration.value)
}

/// Adds the tokens of `= EXPR`, if it is there.
pub fn push_assigned(out: &mut TokenList, assigned: &Option<Assigned>) -> Result<(), NoMemory>
    ensures { OnOk result (out.new ≡ out.old ++ spec.maybe spec.assigned_words assigned.now) }
{
    match assigned {
        Some(assigned) => {
            out.mark(Mark::Assign, assigned.assign)?;
            push_expr(out, &assigned.value)
        }
        None => Ok(()),
    }
}

fn push_input(out: &mut TokenList, input: &InputDeclaration) -> Result<(), NoMemory>
    ensures { OnOk result (out.new ≡ out.old ++ spec.input_words input.now) }
{
    push_type(out, &input.ty)?;
    out.ident(&input.name)?;
    push_assigned(out, &input.preset)
}

fn push_input_list(out: &mut TokenList, inputs: &[InputDeclaration]) -> Result<(), NoMemory>
    ensures { OnOk result (out.new ≡ out.old ++ spec.each spec.input_words inputs.now) }
{
    for input in inputs {
        push_input(out, input)?;
    }
    Ok(())
}

/// Adds the tokens of an input section.
pub fn push_inputs(out: &mut TokenList, section: &InputSection) -> Result<(), NoMemory>
    ensures { OnOk result (out.new ≡ out.old ++ spec.inputs_words section.now) }
{
    out.keyword("input", section.keyword)?;
    out.mark(Mark::OpenBrace, section.opening)?;
    push_input_list(out, section.inputs.as_slice())?;
    out.mark(Mark::CloseBrace, section.closing)
}

fn push_output_list(out: &mut TokenList, outputs: &[Declaration]) -> Result<(), NoMemory>
    ensures { OnOk result (out.new ≡ out.old ++ spec.each spec.declaration_words outputs.now) }
{
    for output in outputs {
        push_declaration(out, output)?;
    }
    Ok(())
}

/// Adds the tokens of an output section.
pub fn push_outputs(out: &mut TokenList, section: &OutputSection) -> Result<(), NoMemory>
    ensures { OnOk result (out.new ≡ out.old ++ spec.outputs_words section.now) }
{
    out.keyword("output", section.keyword)?;
    out.mark(Mark::OpenBrace, section.opening)?;
    push_output_list(out, section.outputs.as_slice())?;
    out.mark(Mark::CloseBrace, section.closing)
}

/// Adds the tokens of a section of metadata under its word.
pub fn push_meta_section(
    out: &mut TokenList,
    word: &str,
    section: &MetaSection,
) -> Result<(), NoMemory>
    requires { has_nul word.now ≡ false }
    ensures { OnOk result (out.new ≡ out.old ++ spec.metadata_words word.now section.now) }
{
    out.keyword(word, section.keyword)?;
    out.mark(Mark::OpenBrace, section.opening)?;
    push_metadata(out, section.attributes.as_slice())?;
    out.mark(Mark::CloseBrace, section.closing)
}
