//! Lists of typed parts, which are read as slices and then taken apart from the front.

ghost use Rattle.std.specs.Prelude.{◌≡◌, ◌++◌, ◌∷◌, [], OnOk};

use std::alloc::Global;
use std::collections::VecDeque;
use std::marker::Model;
use wdl_value::NoMemory;

/// A list that contracts see as its elements.
#[derive(Drop)]
pub struct Parts<T> {
    items: Vec<T>,
}

impl<T> Model for Parts<T> {
    ghost use Rattle.std.specs.Prelude.{List};
    ghost use Rattle.std.specs.Coded.{coded_list};

    ghost Value = { List T };

    ghost coded = { coded_list T.code };

    ghost view = { λ p. p.items.items };
}

impl<T: Drop> Parts<T> {
    /// An empty list.
    pub fn new(alloc: Global) -> Parts<T>
        ensures { result ≡ [] }
    {
        Parts {
            items: Vec::new(alloc),
        }
    }

    /// Adds an element at the end.
    pub fn push(&mut self, item: T) -> Result<(), NoMemory>
        ensures { OnOk result (self.new ≡ self.old ++ item ∷ []) }
    {
        self.items.push(item)?;
        Ok(())
    }

    /// The elements.
    pub fn as_slice(&self) -> &[T]
        ensures { result.now ≡ self.now }
    {
        self.items.as_slice()
    }

    /// The same, to be taken from the front. It takes no memory.
    pub fn into_deque(self) -> VecDeque<T>
        ensures { result.items ≡ self }
    {
        let Parts { items } = self;
        VecDeque::from_vec(items)
    }
}
