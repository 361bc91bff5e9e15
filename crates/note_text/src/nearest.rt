use std::alloc::Global;
use strsim::osa_distance;
use wdl_base::NoMemory;

/// The most bytes of a name that is compared.
const MOST_COMPARED: usize = 64;

/// The nearest of the names that were compared with an unknown one.
///
/// A name is near where it differs in the case of letters alone, or where few edits lead to it: a
/// third of the bytes of the unknown name at most, and at least one. An edit adds, drops or changes
/// a character, or swaps two that stand side by side.
#[derive(Drop)]
pub struct Nearest<'a> {
    unknown: &'a str,
    name: Option<&'a str>,
    edits: usize,
}

/// How many edits lead from one name to the other; none where they are in the same case.
fn edits_between(alloc: Global, unknown: &str, name: &str) -> Result<usize, NoMemory> {
    if unknown.eq_ignore_ascii_case(name) {
        return Ok(0);
    }
    if unknown.len() > MOST_COMPARED || name.len() > MOST_COMPARED {
        return Ok(usize::MAX);
    }
    Ok(osa_distance(alloc, unknown, name)?)
}

impl<'a> Nearest<'a> {
    /// No name was compared with the unknown one yet.
    pub fn new(unknown: &'a str) -> Nearest<'a> {
        Nearest {
            unknown,
            name: None,
            edits: (unknown.len() / 3).max(1).saturating_add(1),
        }
    }

    /// Compares a name. Of names that are as near as each other the first counts.
    pub fn compare(&mut self, alloc: Global, name: &'a str) -> Result<(), NoMemory> {
        let edits = edits_between(alloc, self.unknown, name)?;
        if edits < self.edits {
            self.edits = edits;
            self.name = Some(name);
        }
        Ok(())
    }

    /// The nearest name, where one is near.
    pub fn name(&self) -> Option<&'a str> {
        self.name
    }
}

/// Returns the nearest of the names, where one is near.
pub fn nearest_of<'a>(
    alloc: Global,
    unknown: &'a str,
    names: &[&'a str],
) -> Result<Option<&'a str>, NoMemory> {
    let mut found = Nearest::new(unknown);
    for name in names {
        found.compare(alloc, name)?;
    }
    Ok(found.name())
}
