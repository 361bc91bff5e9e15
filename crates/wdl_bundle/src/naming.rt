//! New names of tasks.

ghost use Rattle.std.specs.Prelude.{◌≡◌, true, false, length, IfOk};
ghost use Rattle.wdl_typed.specs.Lists.{has_name};
ghost use Rattle.wdl_base.specs.Names.{is_name};
ghost use Rattle.wdl_bundle.specs.TaskNames as spec;

use std::alloc::Global;
use wdl_names::NameStack;
use wdl_value::{Name, NameFault, NoMemory};

fn name_of(alloc: Global, text: &str) -> Result<Name, NoMemory>
    requires { is_name text.now ≡ true }
    ensures { IfOk result (λ n. n ≡ text.now) }
{
    match Name::new(alloc, text) {
        Ok(name) => Ok(name),
        Err(NameFault::NoMemory) => Err(NoMemory),
        Err(NameFault::NotAName) => unreachable!(),
    }
}

/// `task_D_K`.
#[tactic(auto, using(crate::proofs::NewNames::pair_is_name), unfolding(crate::specs::TaskNames::task_name))]
fn task_name(alloc: Global, doc: usize, number: usize) -> Result<Name, NoMemory>
    ensures { IfOk result (λ n. n ≡ spec.task_name doc number) }
{
    let text = format!(in alloc; "task_{doc}_{number}")?;
    name_of(alloc, text.as_str())
}

/// `task_D_K_n`.
#[tactic(auto, using(crate::proofs::NewNames::triple_is_name), unfolding(crate::specs::TaskNames::numbered))]
fn numbered(alloc: Global, doc: usize, number: usize, n: usize) -> Result<Name, NoMemory>
    ensures { IfOk result (λ m. m ≡ spec.numbered doc number n) }
{
    let text = format!(in alloc; "task_{doc}_{number}_{n}")?;
    name_of(alloc, text.as_str())
}

/// `task_D_K_n` with the least n that makes it free, where `task_D_K` is taken.
fn first_free(alloc: Global, taken: &NameStack, doc: usize, number: usize) -> Result<Name, NoMemory>
    requires { has_name (spec.task_name doc number) taken.now ≡ true }
    ensures name { IfOk result (λ m. m ≡ spec.free_from (length taken.now) taken.now doc number 0) }
    ensures free { IfOk result (λ m. has_name m taken.now ≡ false) }
{
    for n in 0..taken.len() {
        let name = numbered(alloc, doc, number, n)?;
        if !taken.has(&name) {
            return Ok(name);
        }
    }
    unreachable!()
}

/// `task_D_K`, or `task_D_K_n` with the least n from 0 that is free.
pub fn free_name(
    alloc: Global,
    taken: &NameStack,
    doc: usize,
    number: usize,
) -> Result<Name, NoMemory>
    ensures name { IfOk result (λ m. m ≡ spec.free_name taken.now doc number) }
    ensures free { IfOk result (λ m. has_name m taken.now ≡ false) }
{
    let name = task_name(alloc, doc, number)?;
    if taken.has(&name) {
        return first_free(alloc, taken, doc, number);
    }
    Ok(name)
}
