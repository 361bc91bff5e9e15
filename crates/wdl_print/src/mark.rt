ghost use Rattle.std.specs.Prelude.{◌≡◌, false};
ghost use Rattle.wdl_base.specs.Plain.{has_nul};
ghost use Rattle.wdl_print.specs.TokenText as spec;

use wdl_ast::{Fence, HoleMark, Mark, Quote};

/// How a mark is written.
pub fn mark_text(mark: Mark) -> &'static str
    ensures value { result.now ≡ spec.mark_text mark }
    ensures plain { has_nul result.now ≡ false }
{
    match mark {
        Mark::OpenBrace => "{",
        Mark::CloseBrace => "}",
        Mark::OpenBracket => "[",
        Mark::CloseBracket => "]",
        Mark::OpenParen => "(",
        Mark::CloseParen => ")",
        Mark::Comma => ",",
        Mark::Colon => ":",
        Mark::Dot => ".",
        Mark::Assign => "=",
        Mark::Question => "?",
        Mark::Plus => "+",
        Mark::Minus => "-",
        Mark::Star => "*",
        Mark::Slash => "/",
        Mark::Percent => "%",
        Mark::Not => "!",
        Mark::Equal => "==",
        Mark::NotEqual => "!=",
        Mark::Less => "<",
        Mark::LessEqual => "<=",
        Mark::Greater => ">",
        Mark::GreaterEqual => ">=",
        Mark::And => "&&",
        Mark::Or => "||",
    }
}

/// The quote of a string, which opens and closes it.
pub fn quote_text(quote: Quote) -> &'static str
    ensures value { result.now ≡ spec.quote_text quote }
    ensures plain { has_nul result.now ≡ false }
{
    match quote {
        Quote::Single => "'",
        Quote::Double => "\"",
    }
}

/// What opens a command.
pub fn opening_text(fence: Fence) -> &'static str
    ensures value { result.now ≡ spec.opening_text fence }
    ensures plain { has_nul result.now ≡ false }
{
    match fence {
        Fence::Brace => "{",
        Fence::Angle => "<<<",
    }
}

/// What closes a command.
pub fn closing_text(fence: Fence) -> &'static str
    ensures value { result.now ≡ spec.closing_text fence }
    ensures plain { has_nul result.now ≡ false }
{
    match fence {
        Fence::Brace => "}",
        Fence::Angle => ">>>",
    }
}

/// What opens a placeholder.
pub fn hole_text(mark: HoleMark) -> &'static str
    ensures value { result.now ≡ spec.hole_text mark }
    ensures plain { has_nul result.now ≡ false }
{
    match mark {
        HoleMark::Tilde => "~{",
        HoleMark::Dollar => "${",
    }
}
