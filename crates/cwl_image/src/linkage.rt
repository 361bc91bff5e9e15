use cwl_model::{CwlTy, Link};
use wdl_names::Keyed;
use wdl_value::Key;

/// What a reference is linked to in a workflow or in a block, and the type under which it is seen
/// there.
#[derive(Debug, Drop)]
pub struct Linkage {
    pub key: Key,
    pub link: Link,
    pub ty: CwlTy,
}

impl Keyed for Linkage {
    ghost keyed = { λ l. l.key };

    fn key(&self) -> &Key {
        &self.key
    }
}
