//! The path of a member.

use note_text::Note;
use std::alloc::Global;
use wdl_base::NoMemory;

/// An input and the members that lead from its value to another one: `w.runs[33].replicate`.
#[derive(Drop)]
pub(crate) struct Path {
    note: Note,
}

impl Path {
    /// The path of an input.
    pub(crate) fn new(alloc: Global, input: &str) -> Result<Path, NoMemory> {
        let mut note = Note::new(alloc);
        note.push_given(input)?;
        Ok(Path { note })
    }

    /// Appends the place of an item.
    pub(crate) fn push_index(&mut self, at: usize) -> Result<(), NoMemory> {
        self.note.push("[")?;
        self.note.push_number(at)?;
        self.note.push("]")
    }

    /// Appends the key of a map.
    pub(crate) fn push_key(&mut self, key: &str) -> Result<(), NoMemory> {
        self.note.push("[")?;
        self.note.push_quoted(key)?;
        self.note.push("]")
    }

    /// Appends the name of a member.
    pub(crate) fn push_member(&mut self, name: &str) -> Result<(), NoMemory> {
        self.note.push(".")?;
        self.note.push_given(name)
    }

    /// The path as it is shown.
    pub(crate) fn as_str(&self) -> &str {
        self.note.as_str()
    }
}
