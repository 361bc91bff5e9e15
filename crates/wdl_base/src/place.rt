ghost use Rattle.std.specs.Prelude.{◌≡◌, ◌++◌, [], false, decimal, OnOk, IfOk};
ghost use Rattle.wdl_base.specs.Places as spec;
ghost use Rattle.wdl_base.specs.Plain.{has_nul};

use crate::error::NoMemory;
use crate::name::Name;
use crate::text::Text;
use sqlite_items::Items;
use std::alloc::Global;

/// A step of the path to an instance of a statement: a call, a scatter or a condition by the number
/// that it has among the blocks of its kind in its body, or an item of a scatter. All are counted
/// from 0.
#[derive(Debug, Drop)]
pub enum Segment {
    Call(Name),
    Scatter(u32),
    If(u32),
    Index(u32),
}

/// The path to an instance of a statement.
pub type Place = Items<Segment>;

impl Segment {
    /// A copy of the segment.
    pub fn copy(&self, alloc: Global) -> Result<Segment, NoMemory>
        ensures { IfOk result (λ s. s ≡ self.now) }
    {
        match self {
            Segment::Call(name) => Ok(Segment::Call(name.copy(alloc)?)),
            Segment::Scatter(k) => Ok(Segment::Scatter(*k)),
            Segment::If(k) => Ok(Segment::If(*k)),
            Segment::Index(i) => Ok(Segment::Index(*i)),
        }
    }
}

/// A copy of the place.
pub fn copy_place(alloc: Global, place: &Place) -> Result<Place, NoMemory>
    ensures { IfOk result (λ p. p ≡ place.now) }
{
    let mut segments = Items::new(alloc);
    for segment in place.as_slice() {
        segments.push(segment.copy(alloc)?)?;
    }
    Ok(segments)
}

/// Appends a word without NUL, and a number in decimal.
fn push_number(alloc: Global, text: &mut Text, word: &str, number: u32) -> Result<(), NoMemory>
    requires { has_nul word.now ≡ false }
    ensures { OnOk result (text.new ≡ text.old ++ (word.now ++ decimal number)) }
{
    text.push_str(word)?;
    let digits = number.to_string(alloc)?;
    text.push_str(digits.as_str())?;
    Ok(())
}

fn push_segment(alloc: Global, text: &mut Text, segment: &Segment) -> Result<(), NoMemory>
    ensures { OnOk result (text.new ≡ text.old ++ spec.segment_text segment.now) }
{
    match segment {
        Segment::Call(name) => text.push_str(name.as_str()),
        Segment::Scatter(k) => push_number(alloc, text, "scatter-", *k),
        Segment::If(k) => push_number(alloc, text, "if-", *k),
        Segment::Index(i) => push_number(alloc, text, "", *i),
    }
}

/// The text of a place: its segments joined by `/`, as `scatter-0/2/say`; the empty place is `.`.
pub fn place_text(alloc: Global, place: &Place) -> Result<Text, NoMemory>
    ensures { IfOk result (λ t. t ≡ spec.place_text place.now) }
{
    let mut text = Text::empty(alloc);
    match place.as_slice() {
        [] => text.push_ascii(b'.')?,
        [first, rest @ ..] => {
            push_segment(alloc, &mut text, first)?;
            push_rest(alloc, &mut text, rest)?;
        }
    }
    Ok(text)
}

/// Appends each segment behind a slash.
fn push_rest(alloc: Global, text: &mut Text, rest: &[Segment]) -> Result<(), NoMemory>
    ensures { OnOk result (text.new ≡ text.old ++ spec.rest_text rest.now) }
{
    for segment in rest {
        text.push_ascii(b'/')?;
        push_segment(alloc, text, segment)?;
    }
    Ok(())
}
