ghost use Rattle.std.specs.Prelude.{◌≡◌, IfOk};
ghost use Rattle.std.specs.Option.{option_copied};
ghost use Rattle.wdl_value.specs.Tables as tables;
ghost use Rattle.wdl_value.specs.Tables.{answer_at, table};
ghost use Rattle.wdl_flow.specs.Marks.{entry_marks};

use std::alloc::Global;
use std::marker::Model;
use wdl_flow::place_mark;
use wdl_names::Places;
use wdl_value::{Answer, Entry, NoMemory, Place, same_place};

/// The answers of a journal, found by their place and attempt in logarithmic time. Of two entries
/// with one place and attempt the first counts.
#[derive(Drop)]
pub struct Answers<'a> {
    entries: &'a [Entry],
    marks: Places,
}

impl<'a> Model for Answers<'a> {
    ghost use Rattle.std.specs.Prelude.{◌≡◌, List};
    ghost use Rattle.wdl_base.specs.declared.entry.Entry.{Entry};
    ghost use Rattle.wdl_flow.specs.Marks.{entry_marks};

    ghost Value = { List Entry };

    ghost view = { λ a. a.entries.now };

    ghost invariant = { λ a. a.marks ≡ entry_marks a.entries.now };
}

fn is_at(entry: &Entry, place: &Place, attempt: u32) -> bool
    ensures { result ≡ tables.is_at place.now attempt (tables.row_of entry.now) }
{
    same_place(entry.request.place.as_slice(), place.as_slice()) && entry.request.attempt == attempt
}

fn answer_among<'a>(entries: &'a [Entry], place: &Place, attempt: u32) -> Option<&'a Answer>
    ensures { option_copied result ≡ answer_at (table entries.now) place.now attempt }
{
    for entry in entries {
        if is_at(entry, place, attempt) {
            return Some(&entry.answer);
        }
    }
    None
}

fn marks_of(alloc: Global, entries: &[Entry]) -> Result<Places, NoMemory>
    ensures { IfOk result (λ m. m ≡ entry_marks entries.now) }
{
    let mut marks = Places::empty(alloc);
    for entry in entries {
        let request = &entry.request;
        marks.push(place_mark(request.place.as_slice(), request.attempt))?;
    }
    Ok(marks)
}

impl<'a> Answers<'a> {
    /// The index of a journal.
    pub fn new(alloc: Global, entries: &'a [Entry]) -> Result<Answers<'a>, NoMemory>
        ensures { IfOk result (λ a. a ≡ entries.now) }
    {
        let marks = marks_of(alloc, entries)?;
        Ok(Answers { entries, marks })
    }

    /// The answer at a place for an attempt.
    pub fn find(&self, place: &Place, attempt: u32) -> Option<&'a Answer>
        ensures { option_copied result ≡ answer_at (table self.now) place.now attempt }
    {
        let from = self.marks.place(place_mark(place.as_slice(), attempt));
        answer_among(&self.entries[from..], place, attempt)
    }
}
