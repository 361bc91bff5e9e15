//! Copies of tasks, under another name and without metadata.

ghost use Rattle.std.specs.Prelude.{◌≡◌, ◌++◌, ◌∷◌, [], IfOk, OnOk};
ghost use Rattle.wdl_check_rules.specs.Locals as local;
ghost use Rattle.wdl_copies.specs.Expressions.{renamed};
ghost use Rattle.wdl_ast.specs.declared.string.StringPart.TheVariants as form;
ghost use Rattle.wdl_copies.specs.Parts as piece;
ghost use Rattle.wdl_copies.specs.Renamed as spec;

use crate::expr::copy_expr;
use crate::keeping::put;
use crate::leaf::{copy_chars, copy_options};
use crate::sections::{copy_declaration, copy_inputs, copy_outputs, named_at};
use sqlite_items::Items;
use std::alloc::Global;
use wdl_ast::{
    Attribute, Chars, CommandSection, Expr, Placeholder, RuntimeSection, StringPart, TaskElement,
    TaskSection, Word,
};
use wdl_check_rules::Local;
use wdl_names::Indexed;
use wdl_value::{Name, NoMemory};

fn copy_word(alloc: Global, word: &Word) -> Result<Word, NoMemory>
    ensures { IfOk result (λ c. c ≡ word.now) }
{
    Ok(Word {
        text: word.text.copy(alloc)?,
        span: word.span,
    })
}

fn push_attribute(
    alloc: Global,
    attributes: &mut Items<Attribute<Expr>>,
    attribute: &Attribute<Expr>,
    locals: &Indexed<Local>,
) -> Result<(), NoMemory>
    ensures { OnOk result (attributes.new ≡ attributes.old ++ spec.attribute_with (local.stands_for locals.now) attribute.now ∷ []) }
{
    let key = copy_word(alloc, &attribute.key)?;
    let value = copy_expr(alloc, &attribute.value, locals)?;
    let copy = Attribute {
        key,
        colon: attribute.colon,
        value,
        comma: attribute.comma,
    };
    put(attributes, copy)
}

fn copy_runtime(
    alloc: Global,
    section: &RuntimeSection,
    locals: &Indexed<Local>,
) -> Result<RuntimeSection, NoMemory>
    ensures { IfOk result (λ s. s ≡ spec.runtime_with (local.stands_for locals.now) section.now) }
{
    let mut attributes = Items::new(alloc);
    for attribute in section.attributes.as_slice() {
        push_attribute(alloc, &mut attributes, attribute, locals)?;
    }
    Ok(RuntimeSection {
        keyword: section.keyword,
        opening: section.opening,
        attributes,
        closing: section.closing,
    })
}

fn push_chars(
    alloc: Global,
    parts: &mut Items<StringPart<Expr>>,
    chars: &Chars,
) -> Result<(), NoMemory>
    ensures { OnOk result (parts.new ≡ parts.old ++ form.Chars chars.now ∷ []) }
{
    put(parts, StringPart::Chars(copy_chars(alloc, chars)?))
}

fn push_hole(
    alloc: Global,
    parts: &mut Items<StringPart<Expr>>,
    hole: &Placeholder<Expr>,
    locals: &Indexed<Local>,
) -> Result<(), NoMemory>
    ensures { OnOk result (parts.new ≡ parts.old ++ form.Placeholder (piece.hole_with (renamed (local.stands_for locals.now)) hole.now) ∷ []) }
{
    let options = copy_options(alloc, &hole.options)?;
    let expr = copy_expr(alloc, &hole.expr, locals)?;
    let copy = Placeholder {
        mark: hole.mark,
        opening: hole.opening,
        options,
        expr,
        closing: hole.closing,
    };
    put(parts, StringPart::Placeholder(copy))
}

fn copy_command(
    alloc: Global,
    section: &CommandSection,
    locals: &Indexed<Local>,
) -> Result<CommandSection, NoMemory>
    ensures { IfOk result (λ s. s ≡ spec.command_with (local.stands_for locals.now) section.now) }
{
    let mut parts = Items::new(alloc);
    for part in section.parts.as_slice() {
        match part {
            StringPart::Chars(chars) => push_chars(alloc, &mut parts, chars)?,
            StringPart::Placeholder(hole) => push_hole(alloc, &mut parts, hole, locals)?,
        }
    }
    Ok(CommandSection {
        keyword: section.keyword,
        fence: section.fence,
        opening: section.opening,
        parts,
        closing: section.closing,
    })
}

/// Adds a copy of a section or a declaration of a task; metadata has none.
fn push_element(
    alloc: Global,
    copies: &mut Items<TaskElement>,
    element: &TaskElement,
    locals: &Indexed<Local>,
) -> Result<(), NoMemory>
    ensures { OnOk result (copies.new ≡ copies.old ++ spec.element_with (local.stands_for locals.now) element.now) }
{
    match element {
        TaskElement::Input(section) => {
            put(
                copies,
                TaskElement::Input(copy_inputs(alloc, section, locals)?),
            )
        }
        TaskElement::Output(section) => {
            put(
                copies,
                TaskElement::Output(copy_outputs(alloc, section, locals)?),
            )
        }
        TaskElement::Runtime(section) => {
            put(
                copies,
                TaskElement::Runtime(copy_runtime(alloc, section, locals)?),
            )
        }
        TaskElement::Command(section) => {
            put(
                copies,
                TaskElement::Command(copy_command(alloc, section, locals)?),
            )
        }
        TaskElement::Declaration(declaration) => {
            let copy = copy_declaration(alloc, declaration, locals)?;
            put(copies, TaskElement::Declaration(copy))
        }
        TaskElement::Meta(_) | TaskElement::ParameterMeta(_) => Ok(()),
    }
}

fn copy_elements(
    alloc: Global,
    elements: &[TaskElement],
    locals: &Indexed<Local>,
) -> Result<Items<TaskElement>, NoMemory>
    ensures { IfOk result (λ es. es ≡ spec.elements_with (local.stands_for locals.now) elements.now) }
{
    let mut copies = Items::new(alloc);
    for element in elements {
        push_element(alloc, &mut copies, element, locals)?;
    }
    Ok(copies)
}

/// A copy of a task under a name, with the names of structs as the library has them and without
/// metadata.
pub fn copy_task(
    alloc: Global,
    task: &TaskSection,
    name: &Name,
    locals: &Indexed<Local>,
) -> Result<TaskSection, NoMemory>
    ensures { IfOk result (λ t. t ≡ spec.task_with (local.stands_for locals.now) name.now task.now) }
{
    let elements = copy_elements(alloc, task.elements.as_slice(), locals)?;
    Ok(TaskSection {
        keyword: task.keyword,
        name: named_at(alloc, name, task.name.span)?,
        opening: task.opening,
        elements,
        closing: task.closing,
    })
}
