/// A part of one document of a library: the number of the document, and the bytes from `start` up
/// to `end`.
#[derive(Clone, Copy, Debug, PartialEq, Eq)]
pub struct Span {
    pub doc: u32,
    pub start: u32,
    pub end: u32,
}
