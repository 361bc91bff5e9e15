use crate::place::Place;

/// An event of a run: a job was taken, its answer was settled, or the run stopped. `Stopped` stands
/// at most once, at the moment of the first stop.
#[derive(Debug, Drop)]
pub enum Step {
    Took(Place),
    Settled(Place),
    Stopped,
}

/// How many jobs were put on the desk, picked by a worker, finished and collected.
#[derive(Clone, Copy, Debug, PartialEq, Eq)]
pub struct Counts {
    pub put: u64,
    pub picked: u64,
    pub finished: u64,
    pub collected: u64,
}
