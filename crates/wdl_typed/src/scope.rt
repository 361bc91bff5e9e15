use wdl_value::{Key, Ty};

/// A name that an expression may refer to, with its type.
#[derive(Debug, Drop)]
pub struct Bound {
    pub key: Key,
    pub ty: Ty,
}
