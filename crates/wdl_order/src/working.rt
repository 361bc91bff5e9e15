ghost use Rattle.std.specs.Prelude.{
  ◌≡◌,
  ◌<◌,
  true,
  false,
  ℕ,
  Bool,
  List,
  [],
  ◌∷◌,
  ◌⊎◌,
  length,
  replicate,
  slice_set,
  IfOk,
  OnOk,
  IfSome,
  IfNone,
  MatchOption,
};
ghost use Rattle.std.specs.BTreeSet.{contains, IsLowerBound, Updates};
ghost use Rattle.std.specs.Ordering.{nat_cmp};
ghost use Rattle.wdl_typed.specs.Lists.{has_number};
ghost use Rattle.wdl_order.specs.Rows.{AllBelow, AreWithin, has, is_set, row};
ghost use Rattle.wdl_order.specs.Working.{AreSized, Trims, IsKept, IsFree};

use crate::rows::{empty_rows, first_unset, push_at, take_at};
use sqlite_items::Items;
use std::alloc::Global;
use std::collections::BTreeSet;
use wdl_base::NoMemory;

/// Members, by their numbers, on the way to an order: what each may still need, which others wait
/// for it, whether it is placed, and those that are ready.
#[derive(Drop)]
pub struct Working {
    pub left: Vec<Items<usize>>,
    pub waiting: Vec<Items<usize>>,
    pub placed: Vec<bool>,
    pub ready: BTreeSet<usize>,
}

/// Drops numbers at the end whose flags are set, and gives the last of the others, which stays.
fn next_unset(numbers: &mut Items<usize>, flags: &[bool]) -> Result<Option<usize>, NoMemory>
    requires { AllBelow (length flags.now) numbers.old }
    ensures next { IfOk result (λ r. MatchOption r (numbers.new ≡ []) (λ q. (has_number q numbers.new ≡ true) × (is_set flags.now q ≡ false))) }
    ensures less { OnOk result ((q : ℕ) → has_number q numbers.new ≡ true → has_number q numbers.old ≡ true) }
    ensures lost { OnOk result ((q : ℕ) → has_number q numbers.old ≡ true → (is_set flags.now q ≡ true) ⊎ (has_number q numbers.new ≡ true)) }
{
    while let Some(number) = numbers.pop() {
        if !flags[number] {
            numbers.push(number)?;
            return Ok(Some(number));
        }
    }
    Ok(None)
}

/// What a member still needs, without some that are placed: the next that is not, if any.
fn trim(
    left: &mut Vec<Items<usize>>,
    member: usize,
    placed: &[bool],
) -> Result<Option<usize>, NoMemory>
    requires inside { member < length left.old.items }
    requires within { AllBelow (length placed.now) (row left.old.items member) }
    ensures trims { OnOk result (Trims left.old.items left.new.items placed.now member) }
    ensures next { IfOk result (λ r. MatchOption r (row left.new.items member ≡ []) (λ q. (has left.new.items member q ≡ true) × (is_set placed.now q ≡ false))) }
{
    next_unset(&mut left[member], placed)
}

/// Takes the first in number of the members that are ready.
pub fn take_first(ready: &mut BTreeSet<usize>) -> Option<usize>
    ensures member { IfSome result (λ m. contains nat_cmp ready.old m ≡ true) }
    ensures least { IfSome result (IsLowerBound nat_cmp ready.old) }
    ensures taken { IfSome result (λ m. Updates nat_cmp ready.old ready.new m false) }
    ensures none { IfNone result (length ready.old.keys ≡ 0) }
{
    ready.pop_first()
}

impl Working {
    /// Finds what the member still waits for: one of its needs that is not placed, or else it is
    /// ready.
    fn settle(&mut self, member: usize) -> Result<(), NoMemory>
        requires { (need : ℕ → ℕ → Bool) × (rest : List ℕ) × IsKept need self.old (member ∷ rest) }
        ensures flags { OnOk result (self.new.placed.items ≡ self.old.placed.items) }
        ensures kept { OnOk result ((need : ℕ → ℕ → Bool) → (rest : List ℕ) → IsKept need self.old (member ∷ rest) → IsKept need self.new rest) }
    {
        match trim(&mut self.left, member, self.placed.as_slice())? {
            Some(need) => push_at(&mut self.waiting, need, member),
            None => {
                self.ready.insert(member)?;
                Ok(())
            }
        }
    }

    /// Marks the member as placed, and takes those that wait for it.
    fn mark(&mut self, alloc: Global, member: usize) -> Items<usize>
        requires { (need : ℕ → ℕ → Bool) × IsKept need self.old (member ∷ []) }
        ensures flags { self.new.placed.items ≡ slice_set self.old.placed.items member true }
        ensures kept { (need : ℕ → ℕ → Bool) → IsKept need self.old (member ∷ []) → IsFree need self.old.placed.items self.old.ready member → IsKept need self.new result }
    {
        self.placed[member] = true;
        take_at(alloc, &mut self.waiting, member)
    }

    /// Places a member: some of those that waited for it may be ready now.
    pub fn place(&mut self, alloc: Global, member: usize) -> Result<(), NoMemory>
        requires { (need : ℕ → ℕ → Bool) × IsKept need self.old (member ∷ []) × IsFree need self.old.placed.items self.old.ready member }
        ensures flags { OnOk result (self.new.placed.items ≡ slice_set self.old.placed.items member true) }
        ensures kept { OnOk result ((need : ℕ → ℕ → Bool) → IsKept need self.old (member ∷ []) → IsFree need self.old.placed.items self.old.ready member → IsKept need self.new []) }
    {
        let woken = self.mark(alloc, member);
        for waiter in woken.as_slice() {
            self.settle(*waiter)?;
        }
        Ok(())
    }

    /// Where none is ready, a member that needs itself by way of others: what one that is not
    /// placed waits for, and so on.
    pub fn on_circle(&self) -> usize
        requires some { 0 < length self.now.left.items }
        requires sized { AreSized self.now.left.items self.now.waiting.items self.now.placed.items }
        ensures { result < length self.now.left.items }
    {
        let mut at = first_unset(self.placed.as_slice()).unwrap_or(0);
        for _ in 0..self.left.len() {
            let Some(need) = self.left[at].as_slice().last() else {
                return at;
            };
            at = *need;
        }
        at
    }

    /// Members that need these, none of them placed.
    fn unsettled(alloc: Global, needs: Vec<Items<usize>>) -> Result<Working, NoMemory>
        requires { AreWithin needs.items }
        ensures count { IfOk result (λ w. w.left.items ≡ needs.items) }
        ensures placed { IfOk result (λ w. w.placed.items ≡ replicate (length needs.items) false) }
        ensures kept { IfOk result (λ w. (rest : List ℕ) → AllBelow (length needs.items) rest
            → ((p : ℕ) → p < length needs.items → has_number p rest ≡ true)
            → IsKept (has needs.items) w rest) }
    {
        let waiting = empty_rows(alloc, needs.len())?;
        let placed = Vec::from_elem(alloc, false, needs.len())?;
        Ok(Working {
            left: needs,
            waiting,
            placed,
            ready: BTreeSet::new(alloc),
        })
    }

    /// Members that need these: each is ready or waits for one that it needs.
    pub fn new(alloc: Global, needs: Vec<Items<usize>>) -> Result<Working, NoMemory>
        requires { AreWithin needs.items }
        ensures placed { IfOk result (λ w. w.placed.items ≡ replicate (length needs.items) false) }
        ensures kept { IfOk result (λ w. IsKept (has needs.items) w []) }
    {
        let count = needs.len();
        let mut work = Working::unsettled(alloc, needs)?;
        for member in 0..count {
            work.settle(member)?;
        }
        Ok(work)
    }
}
