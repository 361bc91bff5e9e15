//! A net of steps and cells, with the value of each cell and the rule of each step beside it.

ghost use Rattle.std.specs.Prelude.{◌≡◌, ◌<◌, ℕ, IfOk, OnOk, Some, length, slice_get, slice_index};
ghost use Rattle.std.specs.Option.{option_copied};
ghost use Rattle.step_net.specs.Views.{Wants};
ghost use Rattle.value_net.specs.Nets.{
  IsSound,
  Popped,
  empty,
  value_at,
  view,
  with_cells,
  with_step,
  with_value,
};

use std::alloc::{AllocError, Global};
use step_net::StepNet;

/// *Cells*, each of which is set at most once, to a value, and *steps*, each of which carries a
///  rule and is handed out once, when all cells that it needs are set. Cells and steps are numbered
///  from 0 on, in the order in which they are made.
///
/// All looks at needs over the life of a net are at most its steps and twice its needs, as in
/// `StepNet`. That is no clause. After want of memory nothing is said of a net.
#[derive(Drop)]
pub struct ValueNet<V: Drop, R: Drop> {
    net: StepNet,
    values: Vec<Option<V>>,
    rules: Vec<R>,
}

#[tactic(auto, unfolding(crate::specs::Nets::IsSound, crate::specs::Nets::view))]
impl<V: Drop, R: Drop> ValueNet<V, R> {
    /// A net without cells and steps. It takes no memory.
    pub fn new(alloc: Global) -> Self
        ensures sound { IsSound result }
        ensures empty { view result ≡ empty }
    {
        ValueNet {
            net: StepNet::new(alloc),
            values: Vec::new(alloc),
            rules: Vec::new(alloc),
        }
    }

    /// Makes a cell, which is not set.
    fn add_cell(&mut self, alloc: Global) -> Result<(), AllocError>
        requires { IsSound self.old }
        ensures sound { OnOk result (IsSound self.new) }
        ensures cells { OnOk result (view self.new ≡ with_cells (view self.old) 1) }
    {
        self.net.cell(alloc)?;
        self.values.push(None)?;
        Ok(())
    }

    /// Makes so many cells, which are not set, and answers the number of the first.
    pub fn add_cells(&mut self, alloc: Global, count: usize) -> Result<usize, AllocError>
        requires { IsSound self.old }
        ensures sound { IfOk result (λ c. IsSound self.new) }
        ensures first { IfOk result (λ c. c ≡ length (view self.old).values) }
        ensures cells { IfOk result (λ c. view self.new ≡ with_cells (view self.old) count) }
    {
        let first = self.values.len();
        for _ in 0..count {
            self.add_cell(alloc)?;
        }
        Ok(first)
    }

    /// Makes a step of this rule that needs these cells, in any order and any number of times each,
    /// and answers its number.
    pub fn add_step(&mut self, rule: R, needs: &[usize]) -> Result<usize, AllocError>
        requires there { (k : ℕ) → k < length needs.now → slice_index needs.now k < length (view self.old).values }
        requires sound { IsSound self.old }
        ensures sound { IfOk result (λ s. IsSound self.new) }
        ensures number { IfOk result (λ s. s ≡ length (view self.old).steps) }
        ensures step { IfOk result (λ s. view self.new ≡ with_step (view self.old) rule needs.now) }
    {
        let number = self.net.step(needs)?;
        self.rules.push(rule)?;
        Ok(number)
    }

    /// Sets a cell to a value.
    pub fn set(&mut self, cell: usize, value: V) -> Result<(), AllocError>
        requires there { cell < length (view self.old).values }
        requires sound { IsSound self.old }
        ensures sound { OnOk result (IsSound self.new) }
        ensures set { OnOk result (view self.new ≡ with_value (view self.old) cell value) }
    {
        self.net.set(cell)?;
        self.values[cell] = Some(value);
        Ok(())
    }

    /// Takes a step that was not taken before and whose needs are all set, and answers its number.
    /// `None` comes exactly where each step that is not taken has a need that is not set.
    pub fn pop(&mut self) -> Result<Option<usize>, AllocError>
        requires { IsSound self.old }
        ensures sound { IfOk result (λ o. IsSound self.new) }
        ensures popped { IfOk result (λ o. Popped (view self.old) o (view self.new)) }
    {
        let step = self.net.pop()?;
        Ok(step)
    }

    /// The value of a cell, where it is set.
    pub fn value(&self, cell: usize) -> Option<&V>
        ensures { option_copied result ≡ value_at (view self.now).values cell }
    {
        match self.values.get(cell) {
            Some(Some(value)) => Some(value),
            _ => None,
        }
    }

    /// The rule of a step.
    pub fn rule(&self, step: usize) -> &R
        requires there { step < length (view self.now).rules }
        ensures { slice_get (view self.now).rules step ≡ Some result.now }
    {
        &self.rules[step]
    }

    /// The cells that a step needs, in the order in which they were given.
    pub fn needs_of(&self, step: usize) -> &[usize]
        requires there { step < length (view self.now).steps }
        requires sound { IsSound self.now }
        ensures { (w : Wants) → slice_get (view self.now).steps step ≡ Some w → result.now ≡ w.needs }
    {
        self.net.needs_of(step)
    }
}
