ghost use Rattle.std.specs.Prelude.{◌≡◌, None};

use std::io::Write;
use wdl_port::{Sink, WriteFault};

/// A stream. It tells nothing of what it holds, and counts each error: of the stream, and that it
/// took nothing.
#[derive(Drop)]
pub struct StreamSink<W> {
    writer: W,
    /// How often it has failed.
    pub faults: u64,
}

impl<W> StreamSink<W> {
    /// A sink without faults. It takes no memory.
    pub fn new(writer: W) -> StreamSink<W>
        ensures faults { result.faults ≡ 0 }
    {
        StreamSink { writer, faults: 0 }
    }
}

impl<W: Write> Sink for StreamSink<W> {
    ghost told = { λ s. None };

    ghost faults = { λ s. s.faults };

    fn write(&mut self, piece: &[u8]) -> Result<usize, WriteFault> {
        if piece.is_empty() {
            return Ok(0);
        }
        match self.writer.write(piece) {
            Ok(count) if count > 0 => Ok(count),
            _ => {
                self.faults = self.faults.saturating_add(1);
                Err(WriteFault)
            }
        }
    }
}
