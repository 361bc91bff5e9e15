use std::alloc::{AllocError, Global};
use std::io::Write;
use std::sync::{Mutex, Wait};

/// Where a launcher tells a person why it waits or refuses.
#[derive(Drop)]
pub struct Notes<W> {
    stream: Mutex<W>,
    /// What clears the line that a terminal shows last.
    clear: &'static str,
}

impl<W> Notes<W> {
    /// Notes that are written to a stream, each on a line of its own behind `clear`.
    pub fn new(stream: W, clear: &'static str) -> Notes<W> {
        Notes {
            stream: Mutex::new(stream),
            clear,
        }
    }
}

impl<W: Write> Notes<W> {
    /// Writes a line. Where the stream cannot be written, nobody is told.
    pub(crate) fn tell<R: Wait>(
        &self,
        rt: &R,
        alloc: Global,
        sentence: &str,
    ) -> Result<(), AllocError> {
        let clear = self.clear;
        let line = format!(in alloc; "{clear}{sentence}\n")?;
        let mut stream = self.stream.lock(rt);
        let _ = stream.write_all(line.as_bytes());
        Ok(())
    }
}
