//! The segments of a path, which slashes separate.

ghost use Rattle.std.specs.Prelude.{◌≡◌, ◌&&◌, false, IfOk, OnOk};
ghost use Rattle.wdl_paths.specs.Resolve as spec;
ghost use Rattle.wdl_paths.specs.Resolve.{is_up};
ghost use Rattle.wdl_paths.specs.Keeping.{IsCut, Keeps, KeepsFolder, any_nul, ends_folder, texts};

use std::alloc::Global;
use wdl_base::{NoMemory, Text};

/// What stands before the first slash of a text and what stands behind it; none where there is no
/// slash.
pub fn cut(text: &str) -> Option<(&str, &str)>
    ensures { IsCut text.now result }
{
    text.split_once('/')
}

/// What stands behind the last slash, or the whole text where there is none.
pub fn file_name(text: &str) -> &str
    ensures name { result.now ≡ spec.file_name text.now }
{
    let mut rest = text;
    while let Some((_, more)) = cut(rest) {
        rest = more;
    }
    rest
}

fn is_folder(segment: &str) -> bool
    ensures { result ≡ spec.is_folder segment.now }
{
    !segment.is_empty() && segment != ".."
}

/// Whether the last of these segments goes with a `..` behind it.
fn ends_folder(kept: &[&str]) -> bool
    ensures { result ≡ ends_folder (texts kept.now) }
{
    match kept.last() {
        Some(last) => is_folder(last),
        None => false,
    }
}

/// Whether the segment takes the last of these away.
fn takes_last(kept: &[&str], segment: &str) -> bool
    ensures { result ≡ is_up segment.now && ends_folder (texts kept.now) }
{
    segment == ".." && ends_folder(kept)
}

fn is_here(segment: &str) -> bool
    ensures { result ≡ spec.is_here segment.now }
{
    segment == "."
}

/// Puts a segment behind those that are kept: `.` is not kept, and `..` takes a folder before it
/// away.
pub fn put<'a>(kept: &mut Vec<&'a str>, segment: &'a str) -> Result<(), NoMemory>
    ensures { OnOk result (Keeps (texts kept.old.items) segment.now (texts kept.new.items)) }
{
    if is_here(segment) {
        return Ok(());
    }
    if takes_last(kept.as_slice(), segment) {
        let _ = kept.pop();
        return Ok(());
    }
    kept.push(segment)?;
    Ok(())
}

/// Puts the segments of a text up to its last slash.
pub fn put_folder<'a>(kept: &mut Vec<&'a str>, text: &'a str) -> Result<(), NoMemory>
    ensures { OnOk result (KeepsFolder (texts kept.old.items) text.now (texts kept.new.items)) }
{
    let mut rest = text;
    'segments: while let Some((segment, more)) = cut(rest) {
        put(kept, segment)?;
        rest = more;
    }
    Ok(())
}

/// The segments with slashes between them.
pub fn joined(alloc: Global, segments: &[&str]) -> Result<Text, NoMemory>
    requires { any_nul (texts segments.now) ≡ false }
    ensures { IfOk result (λ t. t ≡ spec.joined (texts segments.now)) }
{
    let [first, rest @ ..] = segments else {
        return Ok(Text::empty(alloc));
    };
    let mut path = Text::from_plain(alloc, first)?;
    for segment in rest {
        path.push_ascii(b'/')?;
        path.push_str(segment)?;
    }
    Ok(path)
}
