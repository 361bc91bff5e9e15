ghost use Rattle.std.specs.Prelude.{◌≡◌, ◌++◌, ◌∷◌, [], IfOk, OnOk};

use std::alloc::Global;
use wdl_value::{Items, Name, NoMemory};

/// The names that a member of a list gives to the others, and those that it refers to.
#[derive(Debug, Drop)]
pub struct Uses {
    pub gives: Items<Name>,
    pub refers: Items<Name>,
}

/// Puts a copy of the name behind the others.
pub fn push_copy(alloc: Global, name: &Name, names: &mut Items<Name>) -> Result<(), NoMemory>
    ensures { OnOk result (names.new ≡ names.old ++ name.now ∷ []) }
{
    names.push(name.copy(alloc)?)?;
    Ok(())
}

/// A list of this name alone.
pub fn one_name(alloc: Global, name: &Name) -> Result<Items<Name>, NoMemory>
    ensures { IfOk result (λ names. names ≡ name.now ∷ []) }
{
    let mut names = Items::new(alloc);
    push_copy(alloc, name, &mut names)?;
    Ok(names)
}
