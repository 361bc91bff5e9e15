//! What is said of members that are given twice.

use crate::scan::repeated_in;
use crate::syntax::line_of;
use note_text::Note;
use std::alloc::Global;
use wdl_base::NoMemory;

/// Appends a line for each of the first members that are given again: what stands in front of its
/// number, and after that.
fn push_repeated(
    alloc: Global,
    note: &mut Note,
    text: &[u8],
    before: &str,
    after: &str,
) -> Result<(), NoMemory> {
    for each in repeated_in(alloc, text)?.iter() {
        note.push_given(before)?;
        note.push_number(line_of(text, each.at))?;
        note.push(after)?;
        note.push_name(each.name.as_str())?;
        note.push(" is given twice; the last one counts\n")?;
    }
    Ok(())
}

/// Appends a line for each of the first members of a text that are given again in their object.
pub(crate) fn push_lines(alloc: Global, note: &mut Note, text: &[u8]) -> Result<(), NoMemory> {
    push_repeated(alloc, note, text, "line ", ": ")
}

/// Returns the warnings, for a person, on an inputs file that is used: a line for each of the first
/// five members that are given again in their object, of which the last one counts. It is empty
/// where there are none. Nothing is promised of what it says.
pub fn inputs_warning(alloc: Global, path: &str, text: &[u8]) -> Result<String, NoMemory> {
    let mut note = Note::new(alloc);
    let before = format!(in alloc; "{path}:")?;
    push_repeated(alloc, &mut note, text, before.as_str(), ": warning: ")?;
    Ok(note.into_string())
}
