ghost use Rattle.std.specs.Prelude.{◌≡◌, ◌++◌, OnOk, IfOk};
ghost use Rattle.wdl_ast.specs.DocumentWords as spec;

use crate::document::{Alias, Document, Import, Section, StructMember, StructSection};
use crate::token::{Mark, Token};
use crate::tokens::call::push_renaming;
use crate::tokens::list::TokenList;
use crate::tokens::task::push_task;
use crate::tokens::type_tree::push_type;
use crate::tokens::workflow::push_workflow;
use sqlite_items::Items;
use std::alloc::Global;
use wdl_value::{NoMemory, Text};

fn push_aliases(out: &mut TokenList, aliases: &[Alias]) -> Result<(), NoMemory>
    ensures { OnOk result (out.new ≡ out.old ++ spec.each spec.alias_words aliases.now) }
{
    for alias in aliases {
        out.keyword("alias", alias.keyword)?;
        out.ident(&alias.from)?;
        out.keyword("as", alias.as_word)?;
        out.ident(&alias.to)?;
    }
    Ok(())
}

fn push_import(out: &mut TokenList, import: &Import) -> Result<(), NoMemory>
    ensures { OnOk result (out.new ≡ out.old ++ spec.import_words import.now) }
{
    out.keyword("import", import.keyword)?;
    out.plain_string(&import.uri)?;
    push_renaming(out, &import.namespace)?;
    push_aliases(out, import.aliases.as_slice())
}

fn push_members(out: &mut TokenList, members: &[StructMember]) -> Result<(), NoMemory>
    ensures { OnOk result (out.new ≡ out.old ++ spec.each spec.struct_member_words members.now) }
{
    for member in members {
        push_type(out, &member.ty)?;
        out.ident(&member.name)?;
    }
    Ok(())
}

fn push_struct(out: &mut TokenList, section: &StructSection) -> Result<(), NoMemory>
    ensures { OnOk result (out.new ≡ out.old ++ spec.struct_words section.now) }
{
    out.keyword("struct", section.keyword)?;
    out.ident(&section.name)?;
    out.mark(Mark::OpenBrace, section.opening)?;
    push_members(out, section.members.as_slice())?;
    out.mark(Mark::CloseBrace, section.closing)
}

fn push_section(out: &mut TokenList, section: &Section) -> Result<(), NoMemory>
    ensures { OnOk result (out.new ≡ out.old ++ spec.section_words section.now) }
{
    match section {
        Section::Import(import) => push_import(out, import),
        Section::Struct(section) => push_struct(out, section),
        Section::Task(task) => push_task(out, task),
        Section::Workflow(workflow) => push_workflow(out, workflow),
    }
}

fn push_sections(out: &mut TokenList, sections: &[Section]) -> Result<(), NoMemory>
    ensures { OnOk result (out.new ≡ out.old ++ spec.each spec.section_words sections.now) }
{
    for section in sections {
        push_section(out, section)?;
    }
    Ok(())
}

/// The tokens that a document stands for, with their spans, in the order of the text. The tree
/// determines them: it has one field for each word, mark and literal. Its recursion is as deep as
/// blocks and expressions stand in one another.
pub fn tokens_of(alloc: Global, document: &Document) -> Result<Items<Token>, NoMemory>
    ensures value { IfOk result (λ ts. ts ≡ spec.document_words document.now) }
{
    let mut out = TokenList::new(alloc);
    out.keyword("version", document.version)?;
    out.fraction(&Text::from_plain(alloc, "1.1")?, document.number)?;
    push_sections(&mut out, document.sections.as_slice())?;
    Ok(out.into_items())
}
