use wdl_value::{Items, Name, Ty};

/// A member of a struct input that is no struct itself, by the members that lead to it.
#[derive(Debug, Drop)]
pub struct Place {
    pub input: Name,
    pub path: Items<Name>,
    pub ty: Ty,
}

/// Such a member as an input of its own.
#[derive(Debug, Drop)]
pub struct Leaf {
    pub input: Name,
    pub path: Items<Name>,
    pub ty: Ty,
    pub name: Name,
}
