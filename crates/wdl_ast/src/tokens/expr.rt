ghost use Rattle.std.specs.Prelude.{◌≡◌, ◌++◌, OnOk};
ghost use Rattle.wdl_ast.specs.Words as spec;

use crate::expr::{BinaryOperator, Expr, MapEntry, MemberEntry, UnaryOperator};
use crate::leaf::ListItem;
use crate::string::StringPart;
use crate::token::{Kind, Mark};
use crate::tokens::list::TokenList;
use crate::tokens::string::push_options;
use wdl_value::NoMemory;

/// The mark of an operator.
pub fn binary_mark(operator: BinaryOperator) -> Mark
    ensures { result ≡ spec.binary_mark operator }
{
    match operator {
        BinaryOperator::Or => Mark::Or,
        BinaryOperator::And => Mark::And,
        BinaryOperator::Equal => Mark::Equal,
        BinaryOperator::NotEqual => Mark::NotEqual,
        BinaryOperator::Less => Mark::Less,
        BinaryOperator::LessEqual => Mark::LessEqual,
        BinaryOperator::Greater => Mark::Greater,
        BinaryOperator::GreaterEqual => Mark::GreaterEqual,
        BinaryOperator::Add => Mark::Plus,
        BinaryOperator::Subtract => Mark::Minus,
        BinaryOperator::Multiply => Mark::Star,
        BinaryOperator::Divide => Mark::Slash,
        BinaryOperator::Remainder => Mark::Percent,
    }
}

/// The mark of an operator.
pub fn unary_mark(operator: UnaryOperator) -> Mark
    ensures { result ≡ spec.unary_mark operator }
{
    match operator {
        UnaryOperator::Not => Mark::Not,
        UnaryOperator::Negate => Mark::Minus,
        UnaryOperator::Plus => Mark::Plus,
    }
}

/// Adds the tokens of an expression.
#[cycle(words)]
#[tactic(auto, using(crate::proofs::WordLaws::equations))]
pub fn push_expr(out: &mut TokenList, expr: &Expr) -> Result<(), NoMemory>
    ensures { OnOk result (out.new ≡ out.old ++ spec.words expr.now) }
{
    match expr {
        Expr::If {
            keyword,
            condition,
            then_word,
            accepted,
            else_word,
            refused,
        } => {
            out.keyword("if", *keyword)?;
            push_expr(out, condition.get())?;
            out.keyword("then", *then_word)?;
            push_expr(out, accepted.get())?;
            out.keyword("else", *else_word)?;
            push_expr(out, refused.get())?;
            Ok(())
        }
        Expr::Binary {
            left,
            operator,
            sign,
            right,
        } => {
            push_expr(out, left.get())?;
            out.mark(binary_mark(*operator), *sign)?;
            push_expr(out, right.get())?;
            Ok(())
        }
        Expr::Unary {
            operator,
            sign,
            operand,
        } => {
            out.mark(unary_mark(*operator), *sign)?;
            push_expr(out, operand.get())?;
            Ok(())
        }
        Expr::Member { base, dot, name } => {
            push_expr(out, base.get())?;
            out.mark(Mark::Dot, *dot)?;
            out.ident(name)?;
            Ok(())
        }
        Expr::Index {
            base,
            opening,
            index,
            closing,
        } => {
            push_expr(out, base.get())?;
            out.mark(Mark::OpenBracket, *opening)?;
            push_expr(out, index.get())?;
            out.mark(Mark::CloseBracket, *closing)?;
            Ok(())
        }
        Expr::True(span) => {
            out.keyword("true", *span)?;
            Ok(())
        }
        Expr::False(span) => {
            out.keyword("false", *span)?;
            Ok(())
        }
        Expr::None(span) => {
            out.keyword("None", *span)?;
            Ok(())
        }
        Expr::Int { value, span } => {
            out.push(Kind::Int(*value), *span)?;
            Ok(())
        }
        Expr::Str(string) => {
            out.push(Kind::StrOpen(string.quote), string.opening)?;
            push_parts(out, string.parts.as_slice())?;
            out.push(Kind::StrClose, string.closing)?;
            Ok(())
        }
        Expr::Name(name) => {
            out.ident(name)?;
            Ok(())
        }
        Expr::Call {
            name,
            opening,
            arguments,
            closing,
        } => {
            out.ident(name)?;
            out.mark(Mark::OpenParen, *opening)?;
            push_items(out, arguments.as_slice())?;
            out.mark(Mark::CloseParen, *closing)?;
            Ok(())
        }
        Expr::Group {
            opening,
            inner,
            closing,
        } => {
            out.mark(Mark::OpenParen, *opening)?;
            push_expr(out, inner.get())?;
            out.mark(Mark::CloseParen, *closing)?;
            Ok(())
        }
        Expr::Pair {
            opening,
            left,
            comma,
            right,
            closing,
        } => {
            out.mark(Mark::OpenParen, *opening)?;
            push_expr(out, left.get())?;
            out.mark(Mark::Comma, *comma)?;
            push_expr(out, right.get())?;
            out.mark(Mark::CloseParen, *closing)?;
            Ok(())
        }
        Expr::List {
            opening,
            items,
            closing,
        } => {
            out.mark(Mark::OpenBracket, *opening)?;
            push_items(out, items.as_slice())?;
            out.mark(Mark::CloseBracket, *closing)?;
            Ok(())
        }
        Expr::Map {
            opening,
            entries,
            closing,
        } => {
            out.mark(Mark::OpenBrace, *opening)?;
            push_entries(out, entries.as_slice())?;
            out.mark(Mark::CloseBrace, *closing)?;
            Ok(())
        }
        Expr::Struct {
            name,
            opening,
            members,
            closing,
        } => {
            out.ident(name)?;
            out.mark(Mark::OpenBrace, *opening)?;
            push_members(out, members.as_slice())?;
            out.mark(Mark::CloseBrace, *closing)?;
            Ok(())
        }
    }
}

#[cycle(words)]
#[tactic(auto, using(crate::proofs::WordLaws::equations))]
fn push_items(out: &mut TokenList, items: &[ListItem<Expr>]) -> Result<(), NoMemory>
    ensures { OnOk result (out.new ≡ out.old ++ spec.items_words spec.words items.now) }
{
    for item in items {
        push_expr(out, &item.item)?;
        out.optional_mark(Mark::Comma, item.comma)?;
    }
    Ok(())
}

#[cycle(words)]
#[tactic(auto, using(crate::proofs::WordLaws::equations))]
fn push_entries(out: &mut TokenList, entries: &[ListItem<MapEntry<Expr>>]) -> Result<(), NoMemory>
    ensures { OnOk result (out.new ≡ out.old ++ spec.items_words (spec.entry_words spec.words) entries.now) }
{
    for entry in entries {
        push_expr(out, &entry.item.key)?;
        out.mark(Mark::Colon, entry.item.colon)?;
        push_expr(out, &entry.item.value)?;
        out.optional_mark(Mark::Comma, entry.comma)?;
    }
    Ok(())
}

#[cycle(words)]
#[tactic(auto, using(crate::proofs::WordLaws::equations))]
fn push_members(
    out: &mut TokenList,
    members: &[ListItem<MemberEntry<Expr>>],
) -> Result<(), NoMemory>
    ensures { OnOk result (out.new ≡ out.old ++ spec.items_words (spec.member_words spec.words) members.now) }
{
    for member in members {
        out.ident(&member.item.name)?;
        out.mark(Mark::Colon, member.item.colon)?;
        push_expr(out, &member.item.value)?;
        out.optional_mark(Mark::Comma, member.comma)?;
    }
    Ok(())
}

/// Adds the tokens of the parts of a string or a command.
#[cycle(words)]
#[tactic(auto, using(crate::proofs::WordLaws::equations))]
pub fn push_parts(out: &mut TokenList, parts: &[StringPart<Expr>]) -> Result<(), NoMemory>
    ensures { OnOk result (out.new ≡ out.old ++ spec.parts_words spec.words parts.now) }
{
    for part in parts {
        let hole = match part {
            StringPart::Chars(chars) => {
                out.chars(chars)?;
                continue;
            }
            StringPart::Placeholder(hole) => hole,
        };
        out.push(Kind::HoleOpen(hole.mark), hole.opening)?;
        push_options(out, &hole.options)?;
        push_expr(out, &hole.expr)?;
        out.push(Kind::HoleClose, hole.closing)?;
    }
    Ok(())
}
