//! The struct names that a document sees.

ghost use Rattle.std.specs.Prelude.{
  ◌≡◌,
  [],
  true,
  length,
  OnOk,
  IfSome,
  IfNone,
  Some,
  false,
  slice_get,
};
ghost use Rattle.wdl_base.specs.Names.{is_among};
ghost use Rattle.wdl_typed.specs.Lists.{are_distinct};
ghost use Rattle.wdl_structs.specs.Tables as spec;

use sqlite_items::Items;
use std::alloc::Global;
use std::marker::Model;
use wdl_names::{Indexed, NameStack, Named};
use wdl_value::{Name, NoMemory};

/// A name that a document sees.
#[derive(Drop)]
pub struct Entry {
    pub name: Name,
}

impl Named for Entry {
    ghost named = { λ e. e.name };

    fn name(&self) -> &Name {
        &self.name
    }
}

/// The struct names that a document sees, each once, in order of first appearance.
#[derive(Drop)]
pub struct Table {
    entries: Items<Entry>,
    words: NameStack,
}

impl Model for Table {
    ghost use Rattle.std.specs.Prelude.{◌≡◌, true, List, ℕ};
    ghost use Rattle.wdl_typed.specs.Lists.{are_distinct};
    ghost use Rattle.wdl_structs.specs.Tables.{named};

    ghost Value = { List (List ℕ) };

    ghost view = { λ t. named t.entries };

    ghost invariant = { λ t. (t.words ≡ named t.entries) × (are_distinct (named t.entries) ≡ true) };
}

impl Table {
    /// No names.
    pub fn empty(alloc: Global) -> Table
        ensures { result ≡ [] }
    {
        Table {
            entries: Items::new(alloc),
            words: NameStack::empty(alloc),
        }
    }

    /// How many names there are.
    pub fn len(&self) -> usize
        ensures { result ≡ length self.now }
    {
        self.entries.len()
    }

    /// The names, in their order.
    pub fn entries(&self) -> &[Entry]
        ensures names { spec.named result.now ≡ self.now }
        ensures distinct { are_distinct self.now ≡ true }
    {
        self.entries.as_slice()
    }

    /// Adds a name behind the others, where it is not one of them.
    pub fn add(&mut self, alloc: Global, name: &Name) -> Result<(), NoMemory>
        ensures { OnOk result (self.new ≡ spec.with_name self.old name.now) }
    {
        if self.words.has(name) {
            return Ok(());
        }
        let copy = name.copy(alloc)?;
        let name = name.copy(alloc)?;
        self.words.enter(copy)?;
        if self.entries.push(Entry { name }).is_err() {
            self.words.leave();
            return Err(NoMemory);
        }
        Ok(())
    }
}

/// Where a name stands.
pub fn place(index: &Indexed<Entry>, name: &Name) -> Option<usize>
    ensures some { IfSome result (λ p. slice_get (spec.named index.now) p ≡ Some name.now) }
    ensures none { IfNone result (is_among name.now (spec.named index.now) ≡ false) }
{
    index.place(name)
}

/// The names of the document of that number.
pub fn entries_at(tables: &[Table], number: usize) -> &[Entry]
    ensures names { spec.named result.now ≡ spec.names_of tables.now number }
    ensures distinct { are_distinct (spec.names_of tables.now number) ≡ true }
{
    match tables.get(number) {
        Some(table) => table.entries(),
        None => &[],
    }
}
