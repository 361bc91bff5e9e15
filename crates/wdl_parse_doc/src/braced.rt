//! The sections of tasks and workflows that are lists in braces.

ghost use Rattle.token_reading.specs.Outcome.{Reads};
ghost use Rattle.wdl_parse_doc.specs.Reading.Sections as spec;

use crate::part_list::{Part, read_braced};
use std::alloc::Global;
use token_reading::{Cursor, RuleStop};
use wdl_ast::{
    Attribute, Declaration, Expr, InputDeclaration, InputSection, Mark, MetaSection, MetaValue,
    OutputSection, RuntimeSection,
};
use wdl_parse_parts::{declaration, input, meta_attribute, runtime_attribute};
use wdl_value::Span;

impl Part for InputDeclaration {
    ghost use Rattle.wdl_parse_parts.specs.Reading.Parts as parts;
    ghost use Rattle.wdl_parse_parts.specs.Reading.Declarations as decls;
    ghost use Rattle.wdl_ast.specs.declared.token.Mark.TheVariants as mark;

    ghost reading = { parts.until mark.CloseBrace decls.input };

    #[tactic(auto, using(std::proofs::lemmas::Grind::common_steps), unfolding(token_reading::specs::Outcome::then_, token_reading::specs::Outcome::found, wdl_parse_parts::specs::Reading::Parts::until))]
    fn read(alloc: Global, tokens: &mut Cursor<'_>) -> Result<Option<InputDeclaration>, RuleStop> {
        if tokens.sees(Mark::CloseBrace) {
            return Ok(None);
        }
        Ok(Some(input(alloc, tokens)?))
    }
}

impl Part for Declaration {
    ghost use Rattle.wdl_parse_parts.specs.Reading.Parts as parts;
    ghost use Rattle.wdl_parse_parts.specs.Reading.Declarations as decls;
    ghost use Rattle.wdl_ast.specs.declared.token.Mark.TheVariants as mark;

    ghost reading = { parts.until mark.CloseBrace decls.declaration };

    #[tactic(auto, using(std::proofs::lemmas::Grind::common_steps), unfolding(token_reading::specs::Outcome::then_, token_reading::specs::Outcome::found, wdl_parse_parts::specs::Reading::Parts::until))]
    fn read(alloc: Global, tokens: &mut Cursor<'_>) -> Result<Option<Declaration>, RuleStop> {
        if tokens.sees(Mark::CloseBrace) {
            return Ok(None);
        }
        Ok(Some(declaration(alloc, tokens)?))
    }
}

impl Part for Attribute<Expr> {
    ghost use Rattle.wdl_parse_expr.specs.Contract as expr;
    ghost use Rattle.wdl_parse_parts.specs.Reading.Parts as parts;
    ghost use Rattle.wdl_ast.specs.declared.token.Mark.TheVariants as mark;

    ghost reading = { parts.until mark.CloseBrace (parts.attribute expr.read_expr) };

    #[tactic(auto, using(std::proofs::lemmas::Grind::common_steps), unfolding(token_reading::specs::Outcome::then_, token_reading::specs::Outcome::found, wdl_parse_parts::specs::Reading::Parts::until))]
    fn read(alloc: Global, tokens: &mut Cursor<'_>) -> Result<Option<Attribute<Expr>>, RuleStop> {
        if tokens.sees(Mark::CloseBrace) {
            return Ok(None);
        }
        Ok(Some(runtime_attribute(alloc, tokens)?))
    }
}

impl Part for Attribute<MetaValue> {
    ghost use Rattle.wdl_parse_parts.specs.Reading.Parts as parts;
    ghost use Rattle.wdl_parse_parts.specs.Reading.Metadata as values;
    ghost use Rattle.wdl_parse_parts.specs.Grammar.{max_meta_depth};
    ghost use Rattle.wdl_ast.specs.declared.token.Mark.TheVariants as mark;

    ghost reading = { parts.until mark.CloseBrace (parts.attribute (values.meta_at max_meta_depth)) };

    fn read(
        alloc: Global,
        tokens: &mut Cursor<'_>,
    ) -> Result<Option<Attribute<MetaValue>>, RuleStop> {
        meta_attribute(alloc, tokens)
    }
}

/// Reads a section of inputs, behind its word.
#[tactic(auto, using(std::proofs::lemmas::Grind::common_steps), unfolding(token_reading::specs::Outcome::then_, token_reading::specs::Outcome::found, crate::specs::Reading::Sections::inputs))]
pub fn inputs(
    alloc: Global,
    tokens: &mut Cursor<'_>,
    keyword: Span,
) -> Result<InputSection, RuleStop>
    ensures { Reads (spec.inputs keyword tokens.old) result tokens.new }
{
    let braced = read_braced::<InputDeclaration>(alloc, tokens)?;
    Ok(InputSection {
        keyword,
        opening: braced.opening,
        inputs: braced.items,
        closing: braced.closing,
    })
}

/// Reads a section of outputs, behind its word.
#[tactic(auto, using(std::proofs::lemmas::Grind::common_steps), unfolding(token_reading::specs::Outcome::then_, token_reading::specs::Outcome::found, crate::specs::Reading::Sections::outputs))]
pub fn outputs(
    alloc: Global,
    tokens: &mut Cursor<'_>,
    keyword: Span,
) -> Result<OutputSection, RuleStop>
    ensures { Reads (spec.outputs keyword tokens.old) result tokens.new }
{
    let braced = read_braced::<Declaration>(alloc, tokens)?;
    Ok(OutputSection {
        keyword,
        opening: braced.opening,
        outputs: braced.items,
        closing: braced.closing,
    })
}

/// Reads a section of runtime attributes, behind its word.
#[tactic(auto, using(std::proofs::lemmas::Grind::common_steps), unfolding(token_reading::specs::Outcome::then_, token_reading::specs::Outcome::found, crate::specs::Reading::Sections::runtime))]
pub fn runtime(
    alloc: Global,
    tokens: &mut Cursor<'_>,
    keyword: Span,
) -> Result<RuntimeSection, RuleStop>
    ensures { Reads (spec.runtime keyword tokens.old) result tokens.new }
{
    let braced = read_braced::<Attribute<Expr>>(alloc, tokens)?;
    Ok(RuntimeSection {
        keyword,
        opening: braced.opening,
        attributes: braced.items,
        closing: braced.closing,
    })
}

/// Reads a section of metadata, behind its word.
#[tactic(auto, using(std::proofs::lemmas::Grind::common_steps), unfolding(token_reading::specs::Outcome::then_, token_reading::specs::Outcome::found, crate::specs::Reading::Sections::metadata))]
pub fn metadata(
    alloc: Global,
    tokens: &mut Cursor<'_>,
    keyword: Span,
) -> Result<MetaSection, RuleStop>
    ensures { Reads (spec.metadata keyword tokens.old) result tokens.new }
{
    let braced = read_braced::<Attribute<MetaValue>>(alloc, tokens)?;
    Ok(MetaSection {
        keyword,
        opening: braced.opening,
        attributes: braced.items,
        closing: braced.closing,
    })
}
