/// What an expression is as a literal, casts aside: its number, if it is an Int literal, which may
/// have `-` before it; whether it is a literal of type Int, String or Boolean or a list of
/// literals; and whether it is a list of at most 256 Int literals with 0 among them.
#[derive(Clone, Copy, Debug, PartialEq, Eq)]
pub struct Literal {
    pub number: Option<i64>,
    pub is_literal: bool,
    pub are_codes: bool,
}
