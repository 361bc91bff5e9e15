ghost use Rattle.std.specs.Prelude.{◌≡◌, ◌++◌, OnOk};
ghost use Rattle.wdl_ast.specs.Words as leaf;
ghost use Rattle.wdl_ast.specs.DocumentWords as spec;

use crate::expr::Expr;
use crate::leaf::Attribute;
use crate::task::{CommandSection, RuntimeSection, TaskElement, TaskSection};
use crate::token::{Kind, Mark};
use crate::tokens::expr::{push_expr, push_parts};
use crate::tokens::list::TokenList;
use crate::tokens::section::{push_declaration, push_inputs, push_meta_section, push_outputs};
use wdl_value::NoMemory;

fn push_runtime_list(out: &mut TokenList, attributes: &[Attribute<Expr>]) -> Result<(), NoMemory>
    ensures { OnOk result (out.new ≡ out.old ++ leaf.attributes_words leaf.words attributes.now) }
{
    for attribute in attributes {
        out.word(&attribute.key)?;
        out.mark(Mark::Colon, attribute.colon)?;
        push_expr(out, &attribute.value)?;
        out.optional_mark(Mark::Comma, attribute.comma)?;
    }
    Ok(())
}

fn push_runtime(out: &mut TokenList, section: &RuntimeSection) -> Result<(), NoMemory>
    ensures { OnOk result (out.new ≡ out.old ++ spec.runtime_words section.now) }
{
    out.keyword("runtime", section.keyword)?;
    out.mark(Mark::OpenBrace, section.opening)?;
    push_runtime_list(out, section.attributes.as_slice())?;
    out.mark(Mark::CloseBrace, section.closing)
}

fn push_command(out: &mut TokenList, section: &CommandSection) -> Result<(), NoMemory>
    ensures { OnOk result (out.new ≡ out.old ++ spec.command_words section.now) }
{
    out.keyword("command", section.keyword)?;
    out.push(Kind::CommandOpen(section.fence), section.opening)?;
    push_parts(out, section.parts.as_slice())?;
    out.push(Kind::CommandClose, section.closing)
}

fn push_element(out: &mut TokenList, element: &TaskElement) -> Result<(), NoMemory>
    ensures { OnOk result (out.new ≡ out.old ++ spec.task_element_words element.now) }
{
    match element {
        TaskElement::Input(section) => push_inputs(out, section),
        TaskElement::Output(section) => push_outputs(out, section),
        TaskElement::Runtime(section) => push_runtime(out, section),
        TaskElement::Meta(section) => push_meta_section(out, "meta", section),
        TaskElement::ParameterMeta(section) => push_meta_section(out, "parameter_meta", section),
        TaskElement::Command(section) => push_command(out, section),
        TaskElement::Declaration(declaration) => push_declaration(out, declaration),
    }
}

fn push_elements(out: &mut TokenList, elements: &[TaskElement]) -> Result<(), NoMemory>
    ensures { OnOk result (out.new ≡ out.old ++ spec.each spec.task_element_words elements.now) }
{
    for element in elements {
        push_element(out, element)?;
    }
    Ok(())
}

/// Adds the tokens of a task.
pub fn push_task(out: &mut TokenList, task: &TaskSection) -> Result<(), NoMemory>
    ensures { OnOk result (out.new ≡ out.old ++ spec.task_words task.now) }
{
    out.keyword("task", task.keyword)?;
    out.ident(&task.name)?;
    out.mark(Mark::OpenBrace, task.opening)?;
    push_elements(out, task.elements.as_slice())?;
    out.mark(Mark::CloseBrace, task.closing)
}
