use crate::listing::Listing;
use std::alloc::Global;
use wdl_value::{FILE_BODY_BYTES, FILE_BYTES, NoMemory};

/// Which of the listed files are kept with their bodies: each that is shorter than `length`, and
/// the first `count` of exactly this length, in byte order of their names. So the shortest files
/// are kept first.
#[derive(Clone, Copy)]
pub(crate) struct Reach {
    length: u64,
    count: usize,
}

fn lengths_of(alloc: Global, listing: &Listing) -> Result<Vec<u64>, NoMemory> {
    let mut lengths = Vec::new(alloc);
    for (_, length) in &listing.files {
        lengths.push(*length)?;
    }
    lengths.sort()?;
    Ok(lengths)
}

fn bytes_of_names(listing: &Listing) -> usize {
    let mut bytes: usize = 0;
    for (name, _) in &listing.files {
        bytes = bytes.saturating_add(name.len());
    }
    bytes
}

/// How far the bytes of an answer reach that are left when all names are counted.
pub(crate) fn reach_of(alloc: Global, listing: &Listing) -> Result<Reach, NoMemory> {
    let mut left = FILE_BYTES.saturating_sub(bytes_of_names(listing)) as u64;
    let mut reach = Reach::NOWHERE;
    for length in &lengths_of(alloc, listing)? {
        let length = *length;
        if length > left || length > FILE_BODY_BYTES as u64 {
            break;
        }
        left -= length;
        if length > reach.length {
            reach = Reach { length, count: 0 };
        }
        reach.count = reach.count.saturating_add(1);
    }
    Ok(reach)
}

impl Reach {
    /// No body is kept.
    pub(crate) const NOWHERE: Reach = Reach {
        length: 0,
        count: 0,
    };

    /// Whether the next file has its body kept.
    pub(crate) fn takes(&mut self, length: u64) -> bool {
        if length == self.length && self.count > 0 {
            self.count -= 1;
            return true;
        }
        length < self.length
    }
}
