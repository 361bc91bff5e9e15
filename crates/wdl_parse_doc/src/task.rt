//! Tasks.

ghost use Rattle.std.specs.Prelude.{◌≡◌, ◌==◌};
ghost use Rattle.std.specs.List.{count_by};
ghost use Rattle.token_reading.specs.Outcome.{Reads};
ghost use Rattle.wdl_parse_doc.specs.Grammar as grammar;
ghost use Rattle.wdl_parse_doc.specs.Reading.Tasks as spec;

use crate::braced::{inputs, metadata, outputs, runtime};
use crate::part_list::{Part, read_braced};
use std::alloc::Global;
use token_reading::{Cursor, RuleStop, is_word, missing};
use wdl_ast::{Kind, Mark, TaskElement, TaskSection};
use wdl_parse_parts::{command, declaration, is_section, take_name};
use wdl_value::Span;

/// Reads a section of a task, or a private declaration.
#[tactic(auto, using(std::proofs::lemmas::Grind::common_steps), unfolding(token_reading::specs::Outcome::then_, token_reading::specs::Outcome::found, crate::specs::Reading::Tasks::task_element))]
fn task_element(alloc: Global, tokens: &mut Cursor<'_>) -> Result<TaskElement, RuleStop>
    ensures { Reads (spec.task_element tokens.old) result tokens.new }
{
    if let Some(keyword) = tokens.eat_word("input") {
        return Ok(TaskElement::Input(inputs(alloc, tokens, keyword)?));
    }
    if let Some(keyword) = tokens.eat_word("output") {
        return Ok(TaskElement::Output(outputs(alloc, tokens, keyword)?));
    }
    if let Some(keyword) = tokens.eat_word("runtime") {
        return Ok(TaskElement::Runtime(runtime(alloc, tokens, keyword)?));
    }
    if let Some(keyword) = tokens.eat_word("meta") {
        return Ok(TaskElement::Meta(metadata(alloc, tokens, keyword)?));
    }
    if let Some(keyword) = tokens.eat_word("parameter_meta") {
        return Ok(TaskElement::ParameterMeta(metadata(alloc, tokens, keyword)?));
    }
    if let Some(keyword) = tokens.eat_word("command") {
        return Ok(TaskElement::Command(command(alloc, tokens, keyword)?));
    }
    Ok(TaskElement::Declaration(declaration(alloc, tokens)?))
}

impl Part for TaskElement {
    ghost use Rattle.wdl_parse_parts.specs.Reading.Parts as parts;
    ghost use Rattle.wdl_parse_doc.specs.Reading.Tasks as spec;
    ghost use Rattle.wdl_ast.specs.declared.token.Mark.TheVariants as mark;

    ghost reading = { parts.until mark.CloseBrace spec.task_element };

    #[tactic(auto, using(std::proofs::lemmas::Grind::common_steps), unfolding(token_reading::specs::Outcome::then_, token_reading::specs::Outcome::found, wdl_parse_parts::specs::Reading::Parts::until))]
    fn read(alloc: Global, tokens: &mut Cursor<'_>) -> Result<Option<TaskElement>, RuleStop> {
        if tokens.sees(Mark::CloseBrace) {
            return Ok(None);
        }
        Ok(Some(task_element(alloc, tokens)?))
    }

    /// A section whose word stood before.
    fn is_misplaced(before: &[TaskElement], tokens: &Cursor<'_>) -> bool {
        match tokens.rest() {
            [first, ..] => is_section(&first.kind) && has_section(before, &first.kind),
            [] => false,
        }
    }
}

/// The word that a section begins with.
fn word_of(element: &TaskElement) -> Option<&'static str> {
    match element {
        TaskElement::Input(_) => Some("input"),
        TaskElement::Output(_) => Some("output"),
        TaskElement::Runtime(_) => Some("runtime"),
        TaskElement::Meta(_) => Some("meta"),
        TaskElement::ParameterMeta(_) => Some("parameter_meta"),
        TaskElement::Command(_) => Some("command"),
        TaskElement::Declaration(_) => None,
    }
}

fn has_section(elements: &[TaskElement], word: &Kind) -> bool {
    for element in elements {
        if let Some(section) = word_of(element) {
            if is_word(word, section) {
                return true;
            }
        }
    }
    false
}

fn at_most_one_input(elements: &[TaskElement]) -> bool
    ensures { result ≡ grammar.at_most_one grammar.is_task_input elements.now }
{
    let count = elements
        .iter()
        .filter(|e| matches!(e, TaskElement::Input(_)))
        .count();
    count <= 1
}

fn at_most_one_output(elements: &[TaskElement]) -> bool
    ensures { result ≡ grammar.at_most_one grammar.is_task_output elements.now }
{
    let count = elements
        .iter()
        .filter(|e| matches!(e, TaskElement::Output(_)))
        .count();
    count <= 1
}

fn at_most_one_runtime(elements: &[TaskElement]) -> bool
    ensures { result ≡ grammar.at_most_one grammar.is_task_runtime elements.now }
{
    let count = elements
        .iter()
        .filter(|e| matches!(e, TaskElement::Runtime(_)))
        .count();
    count <= 1
}

fn at_most_one_meta(elements: &[TaskElement]) -> bool
    ensures { result ≡ grammar.at_most_one grammar.is_task_meta elements.now }
{
    let count = elements
        .iter()
        .filter(|e| matches!(e, TaskElement::Meta(_)))
        .count();
    count <= 1
}

fn at_most_one_parameter_meta(elements: &[TaskElement]) -> bool
    ensures { result ≡ grammar.at_most_one grammar.is_task_parameter_meta elements.now }
{
    let count = elements
        .iter()
        .filter(|e| matches!(e, TaskElement::ParameterMeta(_)))
        .count();
    count <= 1
}

fn one_command(elements: &[TaskElement]) -> bool
    ensures { result ≡ (count_by grammar.is_task_command elements.now == 1) }
{
    let count = elements
        .iter()
        .filter(|e| matches!(e, TaskElement::Command(_)))
        .count();
    count == 1
}

/// Whether there is exactly one command, and each section at most once.
#[tactic(auto, unfolding(crate::specs::Grammar::are_task_sections))]
fn are_task_sections(elements: &[TaskElement]) -> bool
    ensures { result ≡ grammar.are_task_sections elements.now }
{
    at_most_one_input(elements)
        && at_most_one_output(elements)
        && at_most_one_runtime(elements)
        && at_most_one_meta(elements)
        && at_most_one_parameter_meta(elements)
        && one_command(elements)
}

/// Reads a task, behind its word.
#[tactic(auto, using(std::proofs::lemmas::Grind::common_steps), unfolding(token_reading::specs::Outcome::then_, token_reading::specs::Outcome::found, crate::specs::Reading::Tasks::task))]
pub fn task(alloc: Global, tokens: &mut Cursor<'_>, keyword: Span) -> Result<TaskSection, RuleStop>
    ensures { Reads (spec.task keyword tokens.old) result tokens.new }
{
    let name = take_name(alloc, tokens)?;
    let braced = read_braced::<TaskElement>(alloc, tokens)?;
    if are_task_sections(braced.items.as_slice()) {
        return Ok(TaskSection {
            keyword,
            name,
            opening: braced.opening,
            elements: braced.items,
            closing: braced.closing,
        });
    }
    tokens.blame_last();
    missing()
}
