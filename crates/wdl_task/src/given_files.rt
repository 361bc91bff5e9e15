//! The files among the values of a task's inputs and private declarations.

ghost use Rattle.std.specs.Prelude.{◌≡◌, ◌++◌, [], ℕ, List, map, IfOk, OnOk};
ghost use Rattle.std.specs.BTreeSet.{contains_by};
ghost use Rattle.std.specs.Cmp.Lexicographic.{slice_cmp};
ghost use Rattle.std.specs.Ordering.{nat_cmp};
ghost use Rattle.wdl_typed.specs.Requests as spec;
ghost use Rattle.wdl_typed.specs.Scope.{lookup as looked_up};

use std::alloc::Global;
use std::collections::BTreeSet;
use wdl_eval::lookup;
use wdl_names::Named;
use wdl_typed::TaskDef;
use wdl_value::{Bind, Env, Items, Key, Laid, NoMemory, Text, push_file_paths};

/// Appends the paths in the value of that key.
fn push_paths_at<'a>(env: &'a [Bind], key: &Key, paths: &mut Vec<&'a Text>) -> Result<(), NoMemory>
    ensures { OnOk result (map (λ p. p.now) paths.new.items ≡ map (λ p. p.now) paths.old.items ++ spec.value_paths (looked_up env.now key.now)) }
{
    match lookup(env, key) {
        Some(value) => push_file_paths(value, paths),
        None => Ok(()),
    }
}

/// Appends the paths in the values of what is declared, in its order.
fn push_paths<'a, T: Named>(
    alloc: Global,
    env: &'a [Bind],
    declared: &[T],
    paths: &mut Vec<&'a Text>,
) -> Result<(), NoMemory>
    ensures { OnOk result (map (λ p. p.now) paths.new.items ≡ map (λ p. p.now) paths.old.items ++ spec.paths_at env.now (map T.named declared.now)) }
{
    for item in declared {
        let key = Key::plain(alloc, item.name())?;
        push_paths_at(env, &key, paths)?;
    }
    Ok(())
}

/// The names of the files that are laid down.
fn laid_names<'a>(alloc: Global, files: &'a [Laid]) -> Result<BTreeSet<&'a str>, NoMemory>
    ensures { IfOk result (λ s. (q : List ℕ) → contains_by (λ k. slice_cmp nat_cmp q k.now) s ≡ spec.is_laid files.now q) }
{
    let mut names = BTreeSet::new(alloc);
    for file in files {
        names.insert(file.name.as_str())?;
    }
    Ok(names)
}

/// The paths that are not among the names, each at its first place.
fn distinct<'a>(
    alloc: Global,
    files: &'a [Laid],
    paths: &[&'a Text],
) -> Result<Items<Text>, NoMemory>
    ensures { IfOk result (λ ps. ps ≡ spec.with_paths files.now [] (map (λ p. p.now) paths.now)) }
{
    let mut seen = laid_names(alloc, files)?;
    let mut distinct = Items::new(alloc);
    for path in paths {
        if seen.insert(path.as_str())? {
            distinct.push(path.copy(alloc)?)?;
        }
    }
    Ok(distinct)
}

/// The paths of the files among the values of the inputs and then of the private declarations, each
/// at its first place. A file that is laid down is none of them.
pub fn files_given<'a>(
    alloc: Global,
    task: &TaskDef,
    env: &'a Env,
    files: &'a [Laid],
) -> Result<Items<Text>, NoMemory>
    ensures { IfOk result (λ ps. ps ≡ spec.files_given task.now env.now files.now) }
{
    let mut paths = Vec::new(alloc);
    let binds = env.as_slice();
    push_paths(alloc, binds, task.inputs.as_slice(), &mut paths)?;
    push_paths(alloc, binds, task.privates.as_slice(), &mut paths)?;
    distinct(alloc, files, paths.as_slice())
}
