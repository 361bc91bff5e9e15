use wdl_value::Span;

/// A rule of the subset that is broken, by its number from 601 to 613, and the place where it is.
#[derive(Clone, Copy, Debug, PartialEq, Eq)]
pub struct Broken {
    pub rule: u16,
    pub span: Span,
}
