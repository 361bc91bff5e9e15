use crate::leaf::Ident;
use sqlite_items::{Boxed, Items};
use wdl_value::Span;

/// A written type (OpenWDL 1.1, "Types"), with each `?` behind it.
#[derive(Drop)]
pub struct TypeTree {
    pub base: BaseType<TypeTree>,
    pub questions: Items<Span>,
}

/// A written type without its `?`.
#[derive(Drop)]
pub enum BaseType<T> {
    Boolean(Span),
    Int(Span),
    Str(Span),
    File(Span),
    /// The name of a struct.
    Struct(Ident),
    /// `plus` is the `+` of `Array[T]+`.
    Array {
        word: Span,
        opening: Span,
        item: Boxed<T>,
        closing: Span,
        plus: Option<Span>,
    },
    Map {
        word: Span,
        opening: Span,
        key: Boxed<T>,
        comma: Span,
        value: Boxed<T>,
        closing: Span,
    },
    Pair {
        word: Span,
        opening: Span,
        left: Boxed<T>,
        comma: Span,
        right: Boxed<T>,
        closing: Span,
    },
}
