use wdl_value::{Items, Name};

/// The input that stands for a member of a struct input, by the members that lead to it.
#[derive(Debug, Drop)]
pub struct RecordLeaf {
    pub input: Name,
    pub path: Items<Name>,
    pub leaf: Name,
}
