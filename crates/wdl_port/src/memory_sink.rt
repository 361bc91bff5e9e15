ghost use Rattle.std.specs.Prelude.{
  ◌≡◌,
  ◌+◌,
  ◌-◌,
  ◌≤◌,
  ◌<◌,
  ◌++◌,
  [],
  Some,
  IfOk,
  length,
  vec_len,
  vec_capacity,
};
ghost use Rattle.std.specs.Result.{result_ok};
ghost use Rattle.wdl_port.specs.Causes.{HasCause};
ghost use Rattle.wdl_port.specs.Memory as spec;
ghost use Rattle.wdl_port.specs.Told.{taken};

use crate::fault::WriteFault;
use crate::listed::is_listed;
use crate::sink::Sink;
use sqlite_items::Items;
use std::alloc::Global;
use wdl_value::NoMemory;

/// Bytes in memory. A write takes what fits into the room that is left, and fails where none is
/// left. The calls with the listed numbers fail too; calls are numbered from 1.
#[derive(Debug, Drop)]
pub struct MemorySink {
    pub bytes: Vec<u8>,
    /// The bytes that can still be written.
    pub room: usize,
    pub fails: Items<u64>,
    pub calls: u64,
    pub faults: u64,
    pub ghost fits: { vec_len bytes + room ≤ vec_capacity bytes },
}

impl MemorySink {
    /// An empty sink with room for so many bytes. It takes its memory here, and none at a write.
    pub fn new(alloc: Global, room: usize, fails: Items<u64>) -> Result<MemorySink, NoMemory>
        ensures bytes { IfOk result (λ s. s.bytes.items ≡ []) }
        ensures room { IfOk result (λ s. s.room ≡ room) }
        ensures fails { IfOk result (λ s. s.fails ≡ fails) }
        ensures calls { IfOk result (λ s. s.calls ≡ 0) }
        ensures faults { IfOk result (λ s. s.faults ≡ 0) }
    {
        Ok(MemorySink {
            bytes: Vec::with_capacity(alloc, room)?,
            room,
            fails,
            calls: 0,
            faults: 0,
        })
    }
}

impl Sink for MemorySink {
    ghost told = { λ s. Some s.bytes.items };

    ghost faults = { λ s. s.faults };

    fn write(&mut self, piece: &[u8]) -> Result<usize, WriteFault>
        ensures takes { result_ok result ≡ spec.write_takes (length piece.now) self.old.room (spec.is_listed self.new.calls self.old.fails) }
        ensures bytes { self.new.bytes.items ≡ self.old.bytes.items ++ taken result piece.now }
        ensures room { self.new.room ≡ self.old.room - length (taken result piece.now) }
        ensures calls { self.new.calls ≡ spec.counted self.old.calls }
        ensures fails { self.new.fails ≡ self.old.fails }
        ensures cause { HasCause self.old.faults self.new.faults result }
    {
        self.calls = self.calls.saturating_add(1);
        if piece.is_empty() {
            return Ok(0);
        }
        let count = piece.len().min(self.room);
        if count == 0 || is_listed(self.calls, self.fails.as_slice()) {
            self.faults = self.faults.saturating_add(1);
            return Err(WriteFault);
        }
        // There is room, so this takes no memory.
        let Ok(()) = self.bytes.extend_from_slice(&piece[..count]) else {
            unreachable!()
        };
        self.room -= count;
        Ok(count)
    }
}
