//! The names of a task or a workflow.

use crate::shape::Shape;
use std::alloc::Global;
use std::collections::BTreeMap;
use wdl_value::{Name, NoMemory};

/// What is known of a name.
#[derive(Clone, Copy)]
pub struct Known<'a> {
    /// Its type, where it stands for a value or a call.
    pub shape: Option<Shape<'a>>,
    /// Whether something refers to it.
    pub used: bool,
    /// Whether it is an input or an output.
    pub parameter: bool,
    /// Whether it is a file that a function of the language writes.
    pub written: bool,
}

/// What is known of the names of a task or a workflow, found by their text. Names that stand in
/// several blocks are one name here: what one of them is, all are.
#[derive(Drop)]
pub struct Names<'a> {
    alloc: Global,
    places: BTreeMap<String, usize>,
    known: Vec<Known<'a>>,
}

/// A name of which nothing is known yet.
fn unknown<'a>() -> Known<'a> {
    Known {
        shape: None,
        used: false,
        parameter: false,
        written: false,
    }
}

impl<'a> Names<'a> {
    /// No name is known yet.
    pub fn new(alloc: Global) -> Names<'a> {
        Names {
            alloc,
            places: BTreeMap::new(alloc),
            known: Vec::new(alloc),
        }
    }

    /// What is known of a name.
    pub fn get(&self, name: &str) -> Known<'a> {
        match self.places.get(name) {
            Some(place) => self.known.get(*place).copied().unwrap_or(unknown()),
            None => unknown(),
        }
    }

    /// Its type.
    pub fn shape(&self, name: &Name) -> Option<Shape<'a>> {
        self.get(name.as_str()).shape
    }

    /// Says what is known of a name from here on.
    fn set(&mut self, name: &Name, known: Known<'a>) -> Result<(), NoMemory> {
        if let Some(place) = self.places.get(name.as_str()) {
            let place = *place;
            if place < self.known.len() {
                self.known[place] = known;
            }
            return Ok(());
        }
        let text = String::from_str(self.alloc, name.as_str())?;
        let place = self.known.len();
        self.known.push(known)?;
        self.places.insert(text, place)?;
        Ok(())
    }

    /// The name has this type from here on.
    pub fn set_shape(&mut self, name: &Name, shape: Option<Shape<'a>>) -> Result<(), NoMemory> {
        let known = self.get(name.as_str());
        self.set(name, Known { shape, ..known })
    }

    /// Something refers to the name.
    pub fn set_used(&mut self, name: &Name) -> Result<(), NoMemory> {
        let known = self.get(name.as_str());
        self.set(
            name,
            Known {
                used: true,
                ..known
            },
        )
    }

    /// The name is an input or an output.
    pub fn set_parameter(&mut self, name: &Name) -> Result<(), NoMemory> {
        let known = self.get(name.as_str());
        self.set(
            name,
            Known {
                parameter: true,
                ..known
            },
        )
    }

    /// The name is a file that a function writes.
    pub fn set_written(&mut self, name: &Name) -> Result<(), NoMemory> {
        let known = self.get(name.as_str());
        self.set(
            name,
            Known {
                written: true,
                ..known
            },
        )
    }
}
