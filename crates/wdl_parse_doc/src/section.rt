//! Sections of a document.

ghost use Rattle.token_reading.specs.Outcome.{Reads};
ghost use Rattle.wdl_parse_doc.specs.Reading.Documents as spec;

use crate::call::renaming;
use crate::part_list::{Part, many, read_braced};
use crate::task::task;
use crate::workflow::workflow;
use sqlite_items::Items;
use std::alloc::Global;
use token_reading::{Cursor, RuleStop, missing, read_plain};
use wdl_ast::{Alias, Import, Mark, Section, StructMember, StructSection};
use wdl_parse_expr::read_type;
use wdl_parse_parts::{take_name, take_word};
use wdl_value::Span;

impl Part for Alias {
    ghost use Rattle.wdl_parse_doc.specs.Reading.Documents as spec;

    ghost reading = { spec.alias_at };

    #[tactic(auto, using(std::proofs::lemmas::Grind::common_steps), unfolding(token_reading::specs::Outcome::then_, token_reading::specs::Outcome::found, crate::specs::Reading::Documents::alias_at))]
    fn read(alloc: Global, tokens: &mut Cursor<'_>) -> Result<Option<Alias>, RuleStop> {
        let Some(keyword) = tokens.eat_word("alias") else {
            return Ok(None);
        };
        let from = take_name(alloc, tokens)?;
        let as_word = take_word(tokens, "as")?;
        let to = take_name(alloc, tokens)?;
        Ok(Some(Alias {
            keyword,
            from,
            as_word,
            to,
        }))
    }
}

#[tactic(auto, using(std::proofs::lemmas::Grind::common_steps), unfolding(token_reading::specs::Outcome::then_, token_reading::specs::Outcome::found, crate::specs::Reading::Documents::import_))]
fn import(alloc: Global, tokens: &mut Cursor<'_>, keyword: Span) -> Result<Import, RuleStop>
    ensures { Reads (spec.import_ keyword tokens.old) result tokens.new }
{
    let uri = read_plain(alloc, tokens)?;
    let namespace = renaming(alloc, tokens)?;
    let aliases = many::<Alias>(alloc, tokens)?;
    Ok(Import {
        keyword,
        uri,
        namespace,
        aliases,
    })
}

#[tactic(auto, using(std::proofs::lemmas::Grind::common_steps), unfolding(token_reading::specs::Outcome::then_, token_reading::specs::Outcome::found, crate::specs::Reading::Documents::struct_member))]
fn struct_member(alloc: Global, tokens: &mut Cursor<'_>) -> Result<StructMember, RuleStop>
    ensures { Reads (spec.struct_member tokens.old) result tokens.new }
{
    let ty = read_type(alloc, tokens)?;
    let name = take_name(alloc, tokens)?;
    Ok(StructMember { ty, name })
}

impl Part for StructMember {
    ghost use Rattle.wdl_parse_parts.specs.Reading.Parts as parts;
    ghost use Rattle.wdl_parse_doc.specs.Reading.Documents as spec;
    ghost use Rattle.wdl_ast.specs.declared.token.Mark.TheVariants as mark;

    ghost reading = { parts.until mark.CloseBrace spec.struct_member };

    #[tactic(auto, using(std::proofs::lemmas::Grind::common_steps), unfolding(token_reading::specs::Outcome::then_, token_reading::specs::Outcome::found, wdl_parse_parts::specs::Reading::Parts::until))]
    fn read(alloc: Global, tokens: &mut Cursor<'_>) -> Result<Option<StructMember>, RuleStop> {
        if tokens.sees(Mark::CloseBrace) {
            return Ok(None);
        }
        Ok(Some(struct_member(alloc, tokens)?))
    }
}

#[tactic(auto, using(std::proofs::lemmas::Grind::common_steps), unfolding(token_reading::specs::Outcome::then_, token_reading::specs::Outcome::found, crate::specs::Reading::Documents::struct_))]
fn structure(
    alloc: Global,
    tokens: &mut Cursor<'_>,
    keyword: Span,
) -> Result<StructSection, RuleStop>
    ensures { Reads (spec.struct_ keyword tokens.old) result tokens.new }
{
    let name = take_name(alloc, tokens)?;
    let braced = read_braced::<StructMember>(alloc, tokens)?;
    Ok(StructSection {
        keyword,
        name,
        opening: braced.opening,
        members: braced.items,
        closing: braced.closing,
    })
}

#[tactic(auto, using(std::proofs::lemmas::Grind::common_steps), unfolding(token_reading::specs::Outcome::then_, token_reading::specs::Outcome::found, crate::specs::Reading::Documents::section_at))]
fn section(alloc: Global, tokens: &mut Cursor<'_>) -> Result<Section, RuleStop>
    ensures { Reads (spec.section_at tokens.old) result tokens.new }
{
    if let Some(keyword) = tokens.eat_word("import") {
        return Ok(Section::Import(import(alloc, tokens, keyword)?));
    }
    if let Some(keyword) = tokens.eat_word("struct") {
        return Ok(Section::Struct(structure(alloc, tokens, keyword)?));
    }
    if let Some(keyword) = tokens.eat_word("task") {
        return Ok(Section::Task(task(alloc, tokens, keyword)?));
    }
    if let Some(keyword) = tokens.eat_word("workflow") {
        return Ok(Section::Workflow(workflow(alloc, tokens, keyword)?));
    }
    missing()
}

impl Part for Section {
    ghost use Rattle.wdl_parse_doc.specs.Reading.Documents as spec;

    ghost reading = { spec.section_part };

    #[tactic(auto, using(std::proofs::lemmas::Grind::common_steps), unfolding(token_reading::specs::Outcome::then_, token_reading::specs::Outcome::found, crate::specs::Reading::Documents::section_part))]
    fn read(alloc: Global, tokens: &mut Cursor<'_>) -> Result<Option<Section>, RuleStop> {
        if tokens.rest().is_empty() {
            return Ok(None);
        }
        Ok(Some(section(alloc, tokens)?))
    }
}

/// Reads all sections, up to the end of the tokens.
#[tactic(auto, using(std::proofs::lemmas::Grind::common_steps), unfolding(token_reading::specs::Outcome::then_, token_reading::specs::Outcome::found, crate::specs::Reading::Documents::sections))]
pub fn sections(alloc: Global, tokens: &mut Cursor<'_>) -> Result<Items<Section>, RuleStop>
    ensures { Reads (spec.sections tokens.old) result tokens.new }
{
    let sections = many::<Section>(alloc, tokens)?;
    if tokens.rest().is_empty() {
        return Ok(sections);
    }
    missing()
}
