ghost use Rattle.std.specs.Prelude.{◌≡◌, ◌++◌, OnOk};
ghost use Rattle.wdl_ast.specs.DocumentWords as spec;

use crate::token::Mark;
use crate::tokens::call::push_call;
use crate::tokens::expr::push_expr;
use crate::tokens::list::TokenList;
use crate::tokens::section::{push_declaration, push_inputs, push_meta_section, push_outputs};
use crate::workflow::{Statement, Workflow, WorkflowElement};
use wdl_value::NoMemory;

#[cycle(words)]
#[tactic(auto, using(crate::proofs::StatementLaws::statement_equations))]
fn push_statement(out: &mut TokenList, statement: &Statement) -> Result<(), NoMemory>
    ensures { OnOk result (out.new ≡ out.old ++ spec.statement_words statement.now) }
{
    match statement {
        Statement::Declaration(declaration) => {
            push_declaration(out, declaration)?;
            Ok(())
        }
        Statement::Call(call) => {
            push_call(out, call)?;
            Ok(())
        }
        Statement::Scatter(scatter) => {
            out.keyword("scatter", scatter.keyword)?;
            out.mark(Mark::OpenParen, scatter.opening_paren)?;
            out.ident(&scatter.item)?;
            out.keyword("in", scatter.in_word)?;
            push_expr(out, &scatter.over)?;
            out.mark(Mark::CloseParen, scatter.closing_paren)?;
            out.mark(Mark::OpenBrace, scatter.opening)?;
            push_statements(out, scatter.body.as_slice())?;
            out.mark(Mark::CloseBrace, scatter.closing)?;
            Ok(())
        }
        Statement::Conditional(conditional) => {
            out.keyword("if", conditional.keyword)?;
            out.mark(Mark::OpenParen, conditional.opening_paren)?;
            push_expr(out, &conditional.condition)?;
            out.mark(Mark::CloseParen, conditional.closing_paren)?;
            out.mark(Mark::OpenBrace, conditional.opening)?;
            push_statements(out, conditional.body.as_slice())?;
            out.mark(Mark::CloseBrace, conditional.closing)?;
            Ok(())
        }
    }
}

#[cycle(words)]
#[tactic(auto, using(crate::proofs::StatementLaws::statement_equations))]
fn push_statements(out: &mut TokenList, statements: &[Statement]) -> Result<(), NoMemory>
    ensures { OnOk result (out.new ≡ out.old ++ spec.each spec.statement_words statements.now) }
{
    for statement in statements {
        push_statement(out, statement)?;
    }
    Ok(())
}

fn push_element(out: &mut TokenList, element: &WorkflowElement) -> Result<(), NoMemory>
    ensures { OnOk result (out.new ≡ out.old ++ spec.workflow_element_words element.now) }
{
    match element {
        WorkflowElement::Input(section) => push_inputs(out, section),
        WorkflowElement::Output(section) => push_outputs(out, section),
        WorkflowElement::Meta(section) => push_meta_section(out, "meta", section),
        WorkflowElement::ParameterMeta(section) => push_meta_section(
            out,
            "parameter_meta",
            section,
        ),
        WorkflowElement::Statement(statement) => push_statement(out, statement),
    }
}

fn push_elements(out: &mut TokenList, elements: &[WorkflowElement]) -> Result<(), NoMemory>
    ensures { OnOk result (out.new ≡ out.old ++ spec.each spec.workflow_element_words elements.now) }
{
    for element in elements {
        push_element(out, element)?;
    }
    Ok(())
}

/// Adds the tokens of a workflow.
pub fn push_workflow(out: &mut TokenList, workflow: &Workflow) -> Result<(), NoMemory>
    ensures { OnOk result (out.new ≡ out.old ++ spec.workflow_words workflow.now) }
{
    out.keyword("workflow", workflow.keyword)?;
    out.ident(&workflow.name)?;
    out.mark(Mark::OpenBrace, workflow.opening)?;
    push_elements(out, workflow.elements.as_slice())?;
    out.mark(Mark::CloseBrace, workflow.closing)?;
    Ok(())
}
