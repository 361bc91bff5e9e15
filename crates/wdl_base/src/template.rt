use crate::text::Text;
use sqlite_items::Items;

/// A piece of a template: characters as they stand, or a hole for the piece of that number.
#[derive(Debug, Drop)]
pub enum Part {
    Chars(Text),
    Hole(u32),
}

/// A text with numbered holes.
pub type Template = Items<Part>;
