//! A net of steps and cells. A step that is not taken watches one cell that it needs and that is
//! not set, or it is queued: first in, first out.

ghost use Rattle.std.specs.Prelude.{
  ◌≡◌,
  ◌<◌,
  ◌≤◌,
  ℕ,
  true,
  false,
  Some,
  IfOk,
  slice_get,
  slice_index,
  length,
};
ghost use Rattle.step_net.specs.Nets.{AreSound, IsSoundBut, need_is_set};
ghost use Rattle.step_net.specs.Views.{
  IsSoundNet,
  Looked,
  Popped,
  Wants,
  view,
  empty,
  with_cell,
  with_step,
  with_set,
};

use std::alloc::{AllocError, Global};
use std::collections::VecDeque;

/// A step: it needs the cells in a range of the net's needs, and those before `next` are set.
#[derive(Clone, Copy)]
struct Step {
    start: usize,
    next: usize,
    end: usize,
    is_taken: bool,
}

/// *Cells*, each set at most once, and *steps*, each handed out once, when all cells that it needs
/// are set. Cells and steps are numbered from 0 on, in the order in which they are made.
///
/// A step waits at the first of its needs that is not set, and goes on from there when that cell is
/// set, so it passes each of its needs once. All looks over the life of a net are therefore at most
/// its steps and twice its needs. That is no clause.
///
/// Steps are handed out in the order in which they were made or in which the last cell that they
/// waited for was set. Where one cell frees several, they come in the order in which they began to
/// wait for it. That is no clause either. After want of memory nothing is said of a net.
#[derive(Drop)]
pub struct StepNet {
    is_set: Vec<bool>,
    watchers: Vec<VecDeque<usize>>,
    needs: Vec<usize>,
    steps: Vec<Step>,
    queue: VecDeque<usize>,
}

/// The first need from `next` on that is not set, or the end.
fn first_missing(needs: &[usize], is_set: &[bool], next: usize, end: usize) -> usize
    requires order { next ≤ end }
    requires end { end ≤ length needs.now }
    requires within { (k : ℕ) → k < length needs.now → slice_index needs.now k < length is_set.now }
    ensures low { next ≤ result }
    ensures high { result ≤ end }
    ensures before { (k : ℕ) → next ≤ k → k < result → need_is_set is_set.now needs.now k ≡ true }
    ensures here { result < end → need_is_set is_set.now needs.now result ≡ false }
{
    for k in next..end {
        if !is_set[needs[k]] {
            return k;
        }
    }
    end
}

impl StepNet {
    /// A net without cells and steps. It takes no memory.
    #[tactic(auto, unfolding(crate::specs::Views::IsSoundNet, crate::specs::Views::view))]
    pub fn new(alloc: Global) -> Self
        ensures sound { IsSoundNet result }
        ensures empty { view result ≡ empty }
    {
        StepNet {
            is_set: Vec::new(alloc),
            watchers: Vec::new(alloc),
            needs: Vec::new(alloc),
            steps: Vec::new(alloc),
            queue: VecDeque::new(alloc),
        }
    }

    /// Takes the step if all that it needs is set; else it watches the first need that is not.
    fn look(&mut self, s: usize) -> Result<bool, AllocError>
        requires there { s < length self.old.steps.items }
        requires sound { IsSoundBut s self.old.is_set.items self.old.watchers.items self.old.needs.items self.old.steps.items self.old.queue.items }
        ensures sound { IfOk result (λ took. AreSound self.new) }
        ensures looked { IfOk result (λ took. Looked (view self.old) s took (view self.new)) }
        ensures queue { IfOk result (λ took. self.new.queue.items ≡ self.old.queue.items) }
    {
        let step = self.steps[s];
        if step.is_taken {
            return Ok(false);
        }
        let next = first_missing(&self.needs, &self.is_set, step.next, step.end);
        if next == step.end {
            self.steps[s] = Step {
                start: step.start,
                next,
                end: step.end,
                is_taken: true,
            };
            return Ok(true);
        }
        let cell = self.needs[next];
        self.watchers[cell].push_back(s)?;
        self.steps[s] = Step {
            start: step.start,
            next,
            end: step.end,
            is_taken: false,
        };
        Ok(false)
    }

    /// Takes a step that was not taken before and whose needs are all set, and answers its number.
    /// `None` comes exactly where each step that is not taken has a need that is not set.
    pub fn pop(&mut self) -> Result<Option<usize>, AllocError>
        requires { IsSoundNet self.old }
        ensures sound { IfOk result (λ o. IsSoundNet self.new) }
        ensures popped { IfOk result (λ o. Popped (view self.old) o (view self.new)) }
    {
        while let Some(s) = self.queue.pop_front() {
            if self.look(s)? {
                return Ok(Some(s));
            }
        }
        Ok(None)
    }

    /// Sets a cell: the steps that wait for it go to the end of the queue. To set it once more
    /// changes nothing.
    pub fn set(&mut self, cell: usize) -> Result<(), AllocError>
        requires there { cell < length (view self.old).cells }
        requires sound { IsSoundNet self.old }
        ensures sound { IfOk result (λ u. IsSoundNet self.new) }
        ensures set { IfOk result (λ u. view self.new ≡ with_set (view self.old) cell) }
    {
        self.queue.append(&mut self.watchers[cell])?;
        self.is_set[cell] = true;
        Ok(())
    }

    /// The cells that a step needs, in the order in which they were given.
    pub fn needs_of(&self, step: usize) -> &[usize]
        requires there { step < length (view self.now).steps }
        requires sound { IsSoundNet self.now }
        ensures { (w : Wants) → slice_get (view self.now).steps step ≡ Some w → result.now ≡ w.needs }
    {
        let step = self.steps[step];
        &self.needs[step.start..step.end]
    }

    /// Makes a cell, which is not set, and answers its number.
    pub fn cell(&mut self, alloc: Global) -> Result<usize, AllocError>
        requires { IsSoundNet self.old }
        ensures sound { IfOk result (λ c. IsSoundNet self.new) }
        ensures number { IfOk result (λ c. c ≡ length (view self.old).cells) }
        ensures cell { IfOk result (λ c. view self.new ≡ with_cell (view self.old)) }
    {
        let number = self.is_set.len();
        self.watchers.push(VecDeque::new(alloc))?;
        self.is_set.push(false)?;
        Ok(number)
    }

    /// Makes a step that needs these cells, in any order and any number of times each, and answers
    /// its number.
    pub fn step(&mut self, needs: &[usize]) -> Result<usize, AllocError>
        requires there { (k : ℕ) → k < length needs.now → slice_index needs.now k < length (view self.old).cells }
        requires sound { IsSoundNet self.old }
        ensures sound { IfOk result (λ s. IsSoundNet self.new) }
        ensures number { IfOk result (λ s. s ≡ length (view self.old).steps) }
        ensures step { IfOk result (λ s. view self.new ≡ with_step (view self.old) needs.now) }
    {
        let number = self.steps.len();
        let start = self.needs.len();
        self.needs.extend_from_slice(needs)?;
        let end = self.needs.len();
        self.queue.push_back(number)?;
        self.steps.push(Step {
            start,
            next: start,
            end,
            is_taken: false,
        })?;
        Ok(number)
    }
}
