//! What a person is told of why a command does no more. No contract speaks of it.

use crate::ended::Work;
use crate::explain::Explain;
use crate::writing::write_all;
use report_text::Status;
use std::alloc::Global;
use wdl_port::Sink;
use wdl_typed::Checked;
use wdl_value::Text;

/// The note on inputs that break a rule.
pub fn note_on_inputs<F: Explain>(
    alloc: Global,
    shelf: &F,
    inputs: &Option<Text>,
    status: &Status,
    checked: &Checked,
) -> Option<String> {
    let Status::Inputs(code, name) = status else {
        return None;
    };
    shelf.inputs(alloc, inputs, *code, name, checked)
}

/// Writes a note, where there is one. That a write fails changes nothing.
pub fn tell<N: Sink>(note: &Option<String>, notes: &mut N) {
    if let Some(note) = note {
        let _ = write_all(notes, note.as_bytes());
    }
}

/// Writes the note of work that was stopped. That a write fails changes nothing.
pub fn write_note<N: Sink>(work: &Work, notes: &mut N) {
    if let Work::Stop(stop) = work {
        tell(&stop.note, notes);
    }
}
