//! The names of the files of a job, by the texts of their paths alone.

ghost use Rattle.std.specs.Prelude.{
  ◌≡◌,
  ◌++◌,
  ◌∷◌,
  [],
  Some,
  None,
  false,
  option_map,
  if◌then◌else◌,
  IfOk,
};
ghost use Rattle.std.specs.Option.{option_copied, unwrap_or};
ghost use Rattle.wdl_base.specs.Plain.{has_nul};
ghost use Rattle.wdl_value.specs.Files as spec;
ghost use Rattle.wdl_value.specs.Paths as paths;
ghost use Rattle.wdl_stdlib.specs.PathParts.{EachPlain, texts};

use std::alloc::Global;
use wdl_value::{NoMemory, Text};

/// The path without a text and a slash at its front.
pub fn below<'a>(dir: &str, path: &'a str) -> Option<&'a str>
    ensures value { option_copied result ≡ spec.stripped (dir.now ++ 47 ∷ []) path.now }
{
    match path.strip_prefix(dir) {
        Some(rest) => rest.strip_prefix('/'),
        None => None,
    }
}

/// Whether the path begins with a slash.
pub fn begins_at_root(path: &str) -> bool
    ensures value { result ≡ spec.begins_at_root path.now }
{
    match path.as_bytes() {
        [] => false,
        [first, ..] => *first == b'/',
    }
}

/// The path without the directory and a slash, where it begins with them.
fn without_directory<'a>(dir: &str, path: &'a str) -> &'a str
    requires { has_nul path.now ≡ false }
    ensures value { result.now ≡ unwrap_or (spec.stripped (dir.now ++ 47 ∷ []) path.now) path.now }
    ensures plain { has_nul result.now ≡ false }
{
    match below(dir, path) {
        Some(rest) => rest,
        None => path,
    }
}

fn parts_of<'a>(alloc: Global, path: &'a str) -> Result<Vec<&'a str>, NoMemory>
    ensures { IfOk result (λ parts. texts parts.items ≡ paths.parts_of path.now) }
{
    Ok(path.split('/').collect(alloc)?)
}

fn is_here(part: &str) -> bool
    ensures { result ≡ spec.is_here part.now }
{
    part == "" || part == "."
}

/// Puts a part behind those of a name. It is false where the part is `..` and there is none before
/// it.
fn put<'a>(name: &mut Vec<&'a str>, part: &'a str) -> Result<bool, NoMemory>
    ensures { IfOk result (λ there. spec.with_part (texts name.old.items) part.now
        ≡ (if there then Some (texts name.new.items) else None)) }
{
    if is_here(part) {
        return Ok(true);
    }
    if part == ".." {
        return Ok(name.pop().is_some());
    }
    name.push(part)?;
    Ok(true)
}

/// The parts of the name that the parts of a path come to.
fn parts_left<'a>(alloc: Global, parts: &[&'a str]) -> Result<Option<Vec<&'a str>>, NoMemory>
    ensures { IfOk result (λ left. option_map (λ name. texts name.items) left ≡ spec.with_parts [] (texts parts.now)) }
{
    let mut name = Vec::new(alloc);
    for part in parts {
        if !put(&mut name, part)? {
            return Ok(None);
        }
    }
    Ok(Some(name))
}

/// The parts with slashes between them; no parts are no name.
fn name_of(alloc: Global, parts: &[&str]) -> Result<Option<Text>, NoMemory>
    requires { EachPlain (texts parts.now) }
    ensures { IfOk result (λ name. name ≡ spec.name_of (texts parts.now)) }
{
    if parts.is_empty() {
        return Ok(None);
    }
    Ok(Some(Text::from_string(parts.join(alloc, "/")?)))
}

fn relative_name(alloc: Global, path: &str) -> Result<Option<Text>, NoMemory>
    requires { has_nul path.now ≡ false }
    ensures { IfOk result (λ name. name ≡ spec.relative_name path.now) }
{
    if begins_at_root(path) {
        return Ok(None);
    }
    let parts = parts_of(alloc, path)?;
    match parts_left(alloc, parts.as_slice())? {
        Some(left) => name_of(alloc, left.as_slice()),
        None => Ok(None),
    }
}

/// The name of the file of a path in the directory of a job. A directory and a slash at the front
/// of the path are cut once; empty parts and `.` go, and each `..` goes with the part before it. It
/// is none where the rest begins with a slash, where no part is before a `..`, and where no part is
/// left.
pub fn local_name(alloc: Global, dir: &Text, path: &Text) -> Result<Option<Text>, NoMemory>
    ensures value { IfOk result (λ name. name ≡ spec.local_name dir.now path.now) }
{
    relative_name(alloc, without_directory(dir.as_str(), path.as_str()))
}
