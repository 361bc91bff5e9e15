use crate::note::Note;
use wdl_value::NoMemory;

/// Which attempt of a job it is, from 1 on, and how many there may be.
#[derive(Clone, Copy)]
pub(crate) struct Attempt {
    number: u64,
    most: u64,
}

impl Attempt {
    /// The attempt of that number, from 0 on, of a job that may be tried again so often.
    pub(crate) fn new(attempt: u32, retries: u32) -> Attempt {
        Attempt {
            number: u64::from(attempt) + 1,
            most: u64::from(retries) + 1,
        }
    }

    /// Whether an attempt was made before it.
    pub(crate) fn is_again(&self) -> bool {
        self.number > 1
    }

    /// Appends `, attempt 2 of 3`, and nothing where there is one attempt at most.
    pub(crate) fn push_to(&self, note: &mut Note) -> Result<(), NoMemory> {
        if self.most <= 1 {
            return Ok(());
        }
        note.push(", attempt ")?;
        note.push_number(self.number)?;
        note.push(" of ")?;
        note.push_number(self.most)
    }
}
