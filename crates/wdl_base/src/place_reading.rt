//! The place that a text stands for.

ghost use Rattle.std.specs.Prelude.{◌≡◌};
ghost use Rattle.wdl_base.specs.PlaceReading as spec;
ghost use Rattle.wdl_base.specs.declared.place.Segment.TheVariants.{Scatter, If};
ghost use Rattle.wdl_base.specs.declared.place_reading.PlaceFault.TheVariants.{
  NoMemory as OutOfMemory,
};

use crate::error::NameFault;
use crate::name::Name;
use crate::place::{Place, Segment};
use sqlite_items::Items;
use std::alloc::{AllocError, Global};
use thiserror::Error;

/// Why a string stands for no `Place`.
#[derive(Clone, Copy, Debug, PartialEq, Eq, Error)]
pub enum PlaceFault {
    /// It is the text of no place.
    #[error("the text names no place of a run")]
    NotAPlace,
    #[error("out of memory")]
    NoMemory,
}

impl From<AllocError> for PlaceFault {
    ghost from_gives = { λ _ e. e ≡ OutOfMemory };

    fn from(_e: AllocError) -> PlaceFault {
        PlaceFault::NoMemory
    }
}

/// Whether a number may begin so: with no sign, and with no zero before another digit.
fn starts_plainly(bytes: &[u8]) -> bool
    ensures { result ≡ spec.starts_plainly bytes.now }
{
    match bytes {
        [] => false,
        [first] => *first != b'+',
        [first, ..] => *first != b'+' && *first != b'0',
    }
}

/// The number below 2^32 that a string writes in decimal.
fn number_of(s: &str) -> Option<u32>
    ensures { spec.NumberReads s.now result }
{
    if !starts_plainly(s.as_bytes()) {
        return None;
    }
    s.parse::<u32>().ok()
}

fn scatter_of(digits: &str) -> Result<Segment, PlaceFault>
    ensures { spec.NumberedReads Scatter digits.now result }
{
    match number_of(digits) {
        Some(k) => Ok(Segment::Scatter(k)),
        None => Err(PlaceFault::NotAPlace),
    }
}

fn if_of(digits: &str) -> Result<Segment, PlaceFault>
    ensures { spec.NumberedReads If digits.now result }
{
    match number_of(digits) {
        Some(k) => Ok(Segment::If(k)),
        None => Err(PlaceFault::NotAPlace),
    }
}

fn call_of(alloc: Global, s: &str) -> Result<Segment, PlaceFault>
    ensures { spec.CallReads s.now result }
{
    match Name::new(alloc, s) {
        Ok(name) => Ok(Segment::Call(name)),
        Err(NameFault::NotAName) => Err(PlaceFault::NotAPlace),
        Err(NameFault::NoMemory) => Err(PlaceFault::NoMemory),
    }
}

fn segment_of(alloc: Global, s: &str) -> Result<Segment, PlaceFault>
    ensures { spec.SegmentReads s.now result }
{
    if let Some(digits) = s.strip_prefix("scatter-") {
        return scatter_of(digits);
    }
    if let Some(digits) = s.strip_prefix("if-") {
        return if_of(digits);
    }
    if let Some(i) = number_of(s) {
        return Ok(Segment::Index(i));
    }
    call_of(alloc, s)
}

/// The place of that text, as `place_text` writes it. It is `NotAPlace` exactly where the string is
/// no place's text.
pub fn place_of(alloc: Global, s: &str) -> Result<Place, PlaceFault>
    ensures value { spec.PlaceReads s.now result }
{
    let mut place = Items::new(alloc);
    if s == "." {
        return Ok(place);
    }
    let mut rest = s;
    'segments: while let Some((first, more)) = rest.split_once('/') {
        place.push(segment_of(alloc, first)?)?;
        rest = more;
    }
    place.push(segment_of(alloc, rest)?)?;
    Ok(place)
}
