//! Workflows.

ghost use Rattle.std.specs.Prelude.{◌≡◌};
ghost use Rattle.token_reading.specs.Outcome.{Reads};
ghost use Rattle.wdl_parse_doc.specs.Grammar as grammar;
ghost use Rattle.wdl_parse_doc.specs.Reading.Tasks as spec;

use crate::braced::{inputs, metadata, outputs};
use crate::part_list::{Part, read_braced};
use crate::statement::statement;
use std::alloc::Global;
use token_reading::{Cursor, RuleStop, is_word, missing};
use wdl_ast::{Kind, Mark, Workflow, WorkflowElement};
use wdl_parse_parts::{is_section, take_name};
use wdl_value::Span;

/// Reads a section of a workflow, or a statement.
#[tactic(auto, using(std::proofs::lemmas::Grind::common_steps), unfolding(token_reading::specs::Outcome::then_, token_reading::specs::Outcome::found, crate::specs::Reading::Tasks::workflow_element))]
fn workflow_element(alloc: Global, tokens: &mut Cursor<'_>) -> Result<WorkflowElement, RuleStop>
    ensures { Reads (spec.workflow_element tokens.old) result tokens.new }
{
    if let Some(keyword) = tokens.eat_word("input") {
        return Ok(WorkflowElement::Input(inputs(alloc, tokens, keyword)?));
    }
    if let Some(keyword) = tokens.eat_word("output") {
        return Ok(WorkflowElement::Output(outputs(alloc, tokens, keyword)?));
    }
    if let Some(keyword) = tokens.eat_word("meta") {
        return Ok(WorkflowElement::Meta(metadata(alloc, tokens, keyword)?));
    }
    if let Some(keyword) = tokens.eat_word("parameter_meta") {
        return Ok(WorkflowElement::ParameterMeta(metadata(alloc, tokens, keyword)?));
    }
    Ok(WorkflowElement::Statement(statement(alloc, tokens)?))
}

impl Part for WorkflowElement {
    ghost use Rattle.wdl_parse_parts.specs.Reading.Parts as parts;
    ghost use Rattle.wdl_parse_doc.specs.Reading.Tasks as spec;
    ghost use Rattle.wdl_ast.specs.declared.token.Mark.TheVariants as mark;

    ghost reading = { parts.until mark.CloseBrace spec.workflow_element };

    #[tactic(auto, using(std::proofs::lemmas::Grind::common_steps), unfolding(token_reading::specs::Outcome::then_, token_reading::specs::Outcome::found, wdl_parse_parts::specs::Reading::Parts::until))]
    fn read(alloc: Global, tokens: &mut Cursor<'_>) -> Result<Option<WorkflowElement>, RuleStop> {
        if tokens.sees(Mark::CloseBrace) {
            return Ok(None);
        }
        Ok(Some(workflow_element(alloc, tokens)?))
    }

    /// A section whose word stood before.
    fn is_misplaced(before: &[WorkflowElement], tokens: &Cursor<'_>) -> bool {
        match tokens.rest() {
            [first, ..] => is_section(&first.kind) && has_section(before, &first.kind),
            [] => false,
        }
    }
}

/// The word that a section begins with.
fn word_of(element: &WorkflowElement) -> Option<&'static str> {
    match element {
        WorkflowElement::Input(_) => Some("input"),
        WorkflowElement::Output(_) => Some("output"),
        WorkflowElement::Meta(_) => Some("meta"),
        WorkflowElement::ParameterMeta(_) => Some("parameter_meta"),
        WorkflowElement::Statement(_) => None,
    }
}

fn has_section(elements: &[WorkflowElement], word: &Kind) -> bool {
    for element in elements {
        if let Some(section) = word_of(element) {
            if is_word(word, section) {
                return true;
            }
        }
    }
    false
}

fn at_most_one_input(elements: &[WorkflowElement]) -> bool
    ensures { result ≡ grammar.at_most_one grammar.is_flow_input elements.now }
{
    let count = elements
        .iter()
        .filter(|e| matches!(e, WorkflowElement::Input(_)))
        .count();
    count <= 1
}

fn at_most_one_output(elements: &[WorkflowElement]) -> bool
    ensures { result ≡ grammar.at_most_one grammar.is_flow_output elements.now }
{
    let count = elements
        .iter()
        .filter(|e| matches!(e, WorkflowElement::Output(_)))
        .count();
    count <= 1
}

fn at_most_one_meta(elements: &[WorkflowElement]) -> bool
    ensures { result ≡ grammar.at_most_one grammar.is_flow_meta elements.now }
{
    let count = elements
        .iter()
        .filter(|e| matches!(e, WorkflowElement::Meta(_)))
        .count();
    count <= 1
}

fn at_most_one_parameter_meta(elements: &[WorkflowElement]) -> bool
    ensures { result ≡ grammar.at_most_one grammar.is_flow_parameter_meta elements.now }
{
    let count = elements
        .iter()
        .filter(|e| matches!(e, WorkflowElement::ParameterMeta(_)))
        .count();
    count <= 1
}

/// Whether each section stands at most once.
#[tactic(auto, unfolding(crate::specs::Grammar::are_workflow_sections))]
fn are_workflow_sections(elements: &[WorkflowElement]) -> bool
    ensures { result ≡ grammar.are_workflow_sections elements.now }
{
    at_most_one_input(elements)
        && at_most_one_output(elements)
        && at_most_one_meta(elements)
        && at_most_one_parameter_meta(elements)
}

/// Reads a workflow, behind its word.
#[tactic(auto, using(std::proofs::lemmas::Grind::common_steps), unfolding(token_reading::specs::Outcome::then_, token_reading::specs::Outcome::found, crate::specs::Reading::Tasks::workflow))]
pub fn workflow(alloc: Global, tokens: &mut Cursor<'_>, keyword: Span) -> Result<Workflow, RuleStop>
    ensures { Reads (spec.workflow keyword tokens.old) result tokens.new }
{
    let name = take_name(alloc, tokens)?;
    let braced = read_braced::<WorkflowElement>(alloc, tokens)?;
    if are_workflow_sections(braced.items.as_slice()) {
        return Ok(Workflow {
            keyword,
            name,
            opening: braced.opening,
            elements: braced.items,
            closing: braced.closing,
        });
    }
    missing()
}
