ghost use Rattle.std.specs.Prelude.{◌≡◌, true, false, All, IfOk, OnOk, MatchOption};
ghost use Rattle.std.specs.Option.{option_copied};
ghost use Rattle.wdl_value.specs.Tables as tables;
ghost use Rattle.wdl_base.specs.PlaceReading.{IsPlace};
ghost use Rattle.wdl_flow.specs.Marks.{entry_marks};
ghost use Rattle.wdl_port.specs.Rows.{are_kept, rises};
ghost use Rattle.work_desk.specs.Keeping.{ArePlaced};
ghost use Rattle.work_desk.specs.Run.{IsOnlyFor, row_at, usable};

use crate::placed::see_place;
use ready_core::{Job, is_usable_for};
use std::alloc::Global;
use std::marker::Model;
use wdl_flow::place_mark;
use wdl_names::Places;
use wdl_value::{Entry, Items, NoMemory, Request, same_place};

/// The rows of an earlier run, in rising order, found by their place and attempt in logarithmic
/// time.
#[derive(Drop)]
pub(crate) struct Rows {
    entries: Items<Entry>,
    marks: Places,
}

impl Model for Rows {
    ghost use Rattle.std.specs.Prelude.{◌≡◌, List, true};
    ghost use Rattle.wdl_base.specs.declared.entry.Entry.{Entry};
    ghost use Rattle.wdl_base.specs.PlaceReading.{IsPlace};
    ghost use Rattle.wdl_flow.specs.Marks.{entry_marks};
    ghost use Rattle.wdl_port.specs.Rows.{are_kept, rises};

    ghost Value = { List Entry };

    ghost view = { λ r. r.entries };

    ghost invariant = { λ r. (r.marks ≡ entry_marks r.entries) × (rises r.entries ≡ true) × (are_kept r.entries ≡ true) };
}

fn marks_of(alloc: Global, entries: &[Entry]) -> Result<Places, NoMemory>
    ensures marks { IfOk result (λ m. m ≡ entry_marks entries.now) }
{
    let mut marks = Places::empty(alloc);
    for entry in entries {
        let request = &entry.request;
        marks.push(place_mark(request.place.as_slice(), request.attempt))?;
    }
    Ok(marks)
}

fn see_rows(entries: &[Entry])
    ensures placed { All (λ e. IsPlace e.request.place) entries.now }
{
    for entry in entries {
        see_place(&entry.request.place);
    }
}

fn is_at(entry: &Entry, request: &Request) -> bool
    ensures at { result ≡ tables.is_at request.now.place request.now.attempt (tables.row_of entry.now) }
{
    same_place(entry.request.place.as_slice(), request.place.as_slice())
        && entry.request.attempt == request.attempt
}

// The first row of the request's place and attempt.
fn row_among<'a>(entries: &'a [Entry], request: &Request) -> Option<&'a Entry>
    ensures row { option_copied result ≡ row_at entries.now request.now.place request.now.attempt }
{
    for entry in entries {
        if is_at(entry, request) {
            return Some(entry);
        }
    }
    None
}

impl Rows {
    pub(crate) fn new(alloc: Global, entries: Items<Entry>) -> Result<Rows, NoMemory>
        requires rise { rises entries ≡ true }
        requires kept { are_kept entries ≡ true }
        ensures rows { IfOk result (λ r. r ≡ entries) }
        ensures placed { OnOk result (ArePlaced entries) }
    {
        see_rows(entries.as_slice());
        let marks = marks_of(alloc, entries.as_slice())?;
        Ok(Rows { entries, marks })
    }

    // The row of the request's place and attempt.
    fn at(&self, request: &Request) -> Option<&Entry>
        ensures row { option_copied result ≡ row_at self.now request.now.place request.now.attempt }
        ensures rise { rises self.now ≡ true }
        ensures kept { are_kept self.now ≡ true }
    {
        let from = self
            .marks
            .place(place_mark(request.place.as_slice(), request.attempt));
        row_among(&self.entries.as_slice()[from..], request)
    }

    /// The row that is usable for a job. It takes no memory.
    pub(crate) fn find(&self, job: &Job) -> Option<&Entry>
        ensures found { MatchOption (option_copied result) (usable self.now job.now ≡ false) (IsOnlyFor self.now job.now) }
        ensures kept { are_kept self.now ≡ true }
    {
        let Some(row) = self.at(job.request()) else {
            return None;
        };
        if is_usable_for(row, job) {
            Some(row)
        } else {
            None
        }
    }
}
