//! The operators that marks stand for, the words of options, and the functions that are left out.

ghost use Rattle.std.specs.Prelude.{◌≡◌, true, false, Some, None};
ghost use Rattle.token_reading.specs.Forms as forms;
ghost use Rattle.token_reading.specs.Operators as operators;
ghost use Rattle.token_reading.specs.Strings as strings;

use wdl_ast::{BinaryOperator, Mark, UnaryOperator};
use wdl_value::{Name, Text};

/// The word of an option of a placeholder.
#[derive(Clone, Copy, Debug, PartialEq, Eq)]
pub enum OptionWord {
    Sep,
    Default,
    True,
    False,
    Other,
}

/// How loosely an operator binds.
pub fn looseness(operator: BinaryOperator) -> usize
    ensures { result ≡ operators.looseness operator }
{
    match operator {
        BinaryOperator::Multiply | BinaryOperator::Divide | BinaryOperator::Remainder => 0,
        BinaryOperator::Add | BinaryOperator::Subtract => 1,
        BinaryOperator::Less
        | BinaryOperator::LessEqual
        | BinaryOperator::Greater
        | BinaryOperator::GreaterEqual => 2,
        BinaryOperator::Equal | BinaryOperator::NotEqual => 3,
        BinaryOperator::And => 4,
        BinaryOperator::Or => 5,
    }
}

/// The operator between two operands that a mark stands for.
pub fn binary_of(mark: Mark) -> Option<BinaryOperator>
    ensures { result ≡ operators.binary_of mark }
{
    match mark {
        Mark::Or => Some(BinaryOperator::Or),
        Mark::And => Some(BinaryOperator::And),
        Mark::Equal => Some(BinaryOperator::Equal),
        Mark::NotEqual => Some(BinaryOperator::NotEqual),
        Mark::Less => Some(BinaryOperator::Less),
        Mark::LessEqual => Some(BinaryOperator::LessEqual),
        Mark::Greater => Some(BinaryOperator::Greater),
        Mark::GreaterEqual => Some(BinaryOperator::GreaterEqual),
        Mark::Plus => Some(BinaryOperator::Add),
        Mark::Minus => Some(BinaryOperator::Subtract),
        Mark::Star => Some(BinaryOperator::Multiply),
        Mark::Slash => Some(BinaryOperator::Divide),
        Mark::Percent => Some(BinaryOperator::Remainder),
        _ => None,
    }
}

/// The operator before an operand that a mark stands for.
pub fn unary_of(mark: Mark) -> Option<UnaryOperator>
    ensures { result ≡ operators.unary_of mark }
{
    match mark {
        Mark::Not => Some(UnaryOperator::Not),
        Mark::Minus => Some(UnaryOperator::Negate),
        Mark::Plus => Some(UnaryOperator::Plus),
        _ => None,
    }
}

/// The option of a placeholder that a word names.
pub fn option_word(word: &Text) -> OptionWord
    ensures { result ≡ strings.option_word word.now }
{
    if word.is("sep") {
        return OptionWord::Sep;
    }
    if word.is("default") {
        return OptionWord::Default;
    }
    if word.is("true") {
        return OptionWord::True;
    }
    if word.is("false") {
        return OptionWord::False;
    }
    OptionWord::Other
}

/// Whether both words are `true`, or both `false`.
pub fn same_option(a: OptionWord, b: OptionWord) -> bool
    ensures { result ≡ strings.same_option a b }
{
    match (a, b) {
        (OptionWord::True, OptionWord::True) => true,
        (OptionWord::False, OptionWord::False) => true,
        _ => false,
    }
}

fn gives_fraction(name: &Name) -> bool
    ensures { result ≡ forms.gives_fraction name.now }
{
    name.is("floor")
        || name.is("ceil")
        || name.is("round")
        || name.is("size")
        || name.is("read_float")
}

fn takes_object(name: &Name) -> bool
    ensures { result ≡ forms.takes_object name.now }
{
    name.is("read_object")
        || name.is("read_objects")
        || name.is("write_object")
        || name.is("write_objects")
}

fn takes_json(name: &Name) -> bool
    ensures { result ≡ forms.takes_json name.now }
{
    name.is("read_json") || name.is("write_json")
}

/// The code of a function of WDL 1.1 that is left out.
pub fn left_out(name: &Name) -> Option<u16>
    ensures { result ≡ forms.left_out name.now }
{
    if gives_fraction(name) {
        return Some(120);
    }
    if takes_object(name) {
        return Some(121);
    }
    if name.is("sub") {
        return Some(122);
    }
    if takes_json(name) {
        return Some(123);
    }
    None
}
