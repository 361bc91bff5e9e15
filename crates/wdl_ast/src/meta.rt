use crate::leaf::{Attribute, ListItem, PlainString};
use sqlite_items::Items;
use wdl_value::{Span, Text};

/// A value of `meta` and `parameter_meta` (OpenWDL 1.1, "Metadata sections").
#[derive(Drop)]
pub enum MetaValue {
    Null(Span),
    True(Span),
    False(Span),
    Number {
        minus: Option<Span>,
        number: Number,
    },
    Str(PlainString),
    Object {
        opening: Span,
        attributes: Items<Attribute<MetaValue>>,
        closing: Span,
    },
    List {
        opening: Span,
        items: Items<ListItem<MetaValue>>,
        closing: Span,
    },
}

/// A number where it stands; a fraction keeps its spelling.
#[derive(Drop)]
pub enum Number {
    Int { value: i64, span: Span },
    Frac { text: Text, span: Span },
}

/// A `meta` or `parameter_meta` section.
#[derive(Drop)]
pub struct MetaSection {
    pub keyword: Span,
    pub opening: Span,
    pub attributes: Items<Attribute<MetaValue>>,
    pub closing: Span,
}
