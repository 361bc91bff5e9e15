//! A stack that contracts see as a list.

ghost use Rattle.std.specs.Prelude.{◌≡◌, ◌∷◌, [], OnOk, MatchOption};

use std::alloc::{AllocError, Global};
use std::marker::Model;

/// A stack, seen as the list whose first element is the one on top.
#[derive(Drop)]
pub struct Stack<T> {
    items: Vec<T>,
}

impl<T> Model for Stack<T> {
    ghost use Rattle.std.specs.Prelude.{List, reverse};
    ghost use Rattle.std.specs.Coded.{coded_list};

    ghost Value = { List T };

    ghost coded = { coded_list T.code };

    ghost view = { λ s. reverse s.items.items };
}

impl<T> Stack<T> {
    /// A stack with nothing on it.
    pub fn new(alloc: Global) -> Stack<T>
        ensures { result ≡ [] }
    {
        Stack {
            items: Vec::new(alloc),
        }
    }

    /// Takes what is on top.
    pub fn pop(&mut self) -> Option<T>
        ensures { MatchOption result ((self.old ≡ []) × (self.new ≡ [])) (λ top. self.old ≡ top ∷ self.new) }
    {
        self.items.pop()
    }
}

impl<T: Drop> Stack<T> {
    /// Puts one more on top.
    pub fn push(&mut self, item: T) -> Result<(), AllocError>
        ensures { OnOk result (self.new ≡ item ∷ self.old) }
    {
        self.items.push(item)?;
        Ok(())
    }
}
