use std::alloc::Global;
use wdl_port::MemorySink;
use wdl_value::{Items, NoMemory};

/// The sinks of a call, with what was written to each.
#[derive(Drop)]
pub struct Sinks {
    pub out: MemorySink,
    pub err: MemorySink,
    /// The notes on what was read.
    pub notes: MemorySink,
    /// What a person sees of a run.
    pub lines: MemorySink,
}

/// An empty sink with room for so many bytes.
pub fn sink(alloc: Global, room: usize) -> Result<MemorySink, NoMemory> {
    MemorySink::new(alloc, room, Items::new(alloc))
}

impl Sinks {
    /// Sinks with room for an output and a line, and none for notes.
    pub fn new(alloc: Global) -> Result<Sinks, NoMemory> {
        let out = sink(alloc, 100_000)?;
        let err = sink(alloc, 1_000)?;
        let notes = sink(alloc, 0)?;
        let lines = sink(alloc, 0)?;
        Ok(Sinks {
            out,
            err,
            notes,
            lines,
        })
    }
}
