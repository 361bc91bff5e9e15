use wdl_value::{Answer, Place};

/// The answer for a place and attempt.
#[derive(Debug, Drop)]
pub struct TableRow {
    pub place: Place,
    pub attempt: u32,
    pub answer: Answer,
}
