//! Instances of bodies.

use wdl_value::{Items, Place};

/// A body that is entered: its number in the layout, where its own cells and those of each body
/// round it begin, its own last, and its place.
#[derive(Debug, Drop)]
pub struct Instance {
    pub body: usize,
    pub bases: Items<usize>,
    pub place: Place,
}
