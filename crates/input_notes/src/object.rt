//! An object or an array of a text that is not closed yet.

use std::alloc::Global;
use std::collections::BTreeSet;
use wdl_base::NoMemory;

/// Whether it is an object, and the names of its members so far, as they are spelled.
#[derive(Drop)]
pub(crate) struct Open {
    is_object: bool,
    names: BTreeSet<String>,
}

impl Open {
    /// One without members.
    pub(crate) fn new(alloc: Global, is_object: bool) -> Open {
        Open {
            is_object,
            names: BTreeSet::new(alloc),
        }
    }

    /// Whether it is an object.
    pub(crate) fn is_object(&self) -> bool {
        self.is_object
    }

    /// Adds a name, and returns whether it was not there.
    pub(crate) fn add(&mut self, alloc: Global, name: &str) -> Result<bool, NoMemory> {
        if self.names.contains(name) {
            return Ok(false);
        }
        self.names.insert(String::from_str(alloc, name)?)?;
        Ok(true)
    }
}
