ghost use Rattle.std.specs.Prelude.{◌≡◌, ◌++◌, OnOk};
ghost use Rattle.wdl_ast.specs.Words as spec;

use crate::token::Mark;
use crate::tokens::list::TokenList;
use crate::type_tree::{BaseType, TypeTree};
use wdl_value::{NoMemory, Span};

fn push_questions(out: &mut TokenList, questions: &[Span]) -> Result<(), NoMemory>
    ensures { OnOk result (out.new ≡ out.old ++ spec.questions_words questions.now) }
{
    for question in questions {
        out.mark(Mark::Question, *question)?;
    }
    Ok(())
}

/// Adds the tokens of a type.
#[cycle(words)]
#[tactic(auto, using(crate::proofs::WordLaws::type_equations))]
pub fn push_type(out: &mut TokenList, tree: &TypeTree) -> Result<(), NoMemory>
    ensures { OnOk result (out.new ≡ out.old ++ spec.type_words tree.now) }
{
    push_base(out, &tree.base)?;
    push_questions(out, tree.questions.as_slice())?;
    Ok(())
}

#[cycle(words)]
#[tactic(auto, using(crate::proofs::WordLaws::type_equations))]
fn push_base(out: &mut TokenList, base: &BaseType<TypeTree>) -> Result<(), NoMemory>
    ensures { OnOk result (out.new ≡ out.old ++ spec.base_words spec.type_words base.now) }
{
    match base {
        BaseType::Boolean(span) => out.keyword("Boolean", *span),
        BaseType::Int(span) => out.keyword("Int", *span),
        BaseType::Str(span) => out.keyword("String", *span),
        BaseType::File(span) => out.keyword("File", *span),
        BaseType::Struct(name) => out.ident(name),
        BaseType::Array {
            word,
            opening,
            item,
            closing,
            plus,
        } => {
            out.keyword("Array", *word)?;
            out.mark(Mark::OpenBracket, *opening)?;
            push_type(out, item.get())?;
            out.mark(Mark::CloseBracket, *closing)?;
            out.optional_mark(Mark::Plus, *plus)?;
            Ok(())
        }
        BaseType::Map {
            word,
            opening,
            key,
            comma,
            value,
            closing,
        } => {
            out.keyword("Map", *word)?;
            out.mark(Mark::OpenBracket, *opening)?;
            push_type(out, key.get())?;
            out.mark(Mark::Comma, *comma)?;
            push_type(out, value.get())?;
            out.mark(Mark::CloseBracket, *closing)?;
            Ok(())
        }
        BaseType::Pair {
            word,
            opening,
            left,
            comma,
            right,
            closing,
        } => {
            out.keyword("Pair", *word)?;
            out.mark(Mark::OpenBracket, *opening)?;
            push_type(out, left.get())?;
            out.mark(Mark::Comma, *comma)?;
            push_type(out, right.get())?;
            out.mark(Mark::CloseBracket, *closing)?;
            Ok(())
        }
    }
}
