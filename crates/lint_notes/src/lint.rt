use wdl_value::Span;

/// A slip, with the names that its sentence says.
#[derive(Clone, Copy)]
pub enum Lint<'a> {
    /// A form of Bash in a command.
    Bash,
    /// Two Strings that are compared as numbers might be.
    Texts,
    UnusedInput(&'a str),
    UnusedDeclaration(&'a str),
    /// A File in a placeholder outside of quotes.
    UnquotedFile,
    /// An array of Files there, whose expression stands at this span.
    UnquotedFiles(Span),
    /// Metadata under the name of no input or output of this task or workflow.
    NoParameter { key: &'a str, part: &'a str },
    UncalledTask(&'a str),
    /// A character of a pattern that stands for itself.
    LiteralPattern(&'static str),
    NoOutputs(&'a str),
    /// A runtime attribute, and the one that its name is near to.
    NearAttribute { key: &'a str, known: &'a str },
}

/// A slip, and where it stands.
#[derive(Clone, Copy)]
pub struct Warning<'a> {
    pub span: Span,
    pub lint: Lint<'a>,
}
