ghost use Rattle.std.specs.Prelude.{◌≡◌, take, IfOk, IsErrOf, OnOk};
ghost use Rattle.wdl_port.specs.Causes.{HasCauseOf};
ghost use Rattle.wdl_port.specs.Files.{IsFile, read_limit as spec_limit};
ghost use Rattle.wdl_port.specs.Memory as spec;

use crate::fault::ReadFault;
use crate::listed::is_listed;
use crate::shelf::Shelf;
use sqlite_items::Items;
use std::alloc::Global;
use wdl_value::Text;

const READ_LIMIT: usize = 1_048_577;

/// A file of a shelf in memory.
#[derive(Debug, Drop)]
pub struct PathFile {
    pub path: Text,
    pub bytes: Items<u8>,
}

/// Files in a list: the first file of a path counts. The calls with the listed numbers fail, and no
/// other call of a path that has a file; calls are numbered from 1. A read goes over the list once.
#[derive(Debug, Drop)]
pub struct MemoryShelf {
    pub files: Items<PathFile>,
    pub fails: Items<u64>,
    pub calls: u64,
    pub faults: u64,
}

impl MemoryShelf {
    /// A shelf of these files. It takes no memory.
    pub fn new(files: Items<PathFile>, fails: Items<u64>) -> MemoryShelf
        ensures files { result.files ≡ files }
        ensures fails { result.fails ≡ fails }
        ensures calls { result.calls ≡ 0 }
        ensures faults { result.faults ≡ 0 }
    {
        MemoryShelf {
            files,
            fails,
            calls: 0,
            faults: 0,
        }
    }
}

/// The most bytes that a shelf gives of a file: one more than the 1,048,576 of a document. It is a
/// call, since the proofs would unfold `take` of a numeral that often.
#[tactic(auto, unfolding(crate::specs::Files::read_limit))]
pub fn read_limit() -> usize
    ensures { result ≡ spec_limit }
{
    READ_LIMIT
}

/// The first bytes of a slice, at most so many.
#[tactic(auto, using(std::proofs::lemmas::Grind::common_steps))]
pub fn front(bytes: &[u8], limit: usize) -> &[u8]
    ensures { result.now ≡ take limit bytes.now }
{
    if bytes.len() <= limit {
        return bytes;
    }
    &bytes[..limit]
}

fn read_file(alloc: Global, path: &str, files: &[PathFile]) -> Result<Items<u8>, ReadFault>
    ensures { spec.Finds (spec.bytes_at files.now path.now) result }
{
    for file in files {
        if file.path.is(path) {
            let kept = front(file.bytes.as_slice(), read_limit());
            return Ok(Items::from_slice(alloc, kept)?);
        }
    }
    Err(ReadFault::Failed)
}

impl Shelf for MemoryShelf {
    ghost tells = { λ s p. spec.bytes_at s.files p };

    ghost refuses = { λ s p. spec.CanFail s.files s.fails p };

    ghost faults = { λ s. s.faults };

    fn read(&mut self, alloc: Global, path: &str) -> Result<Items<u8>, ReadFault>
        ensures value { spec.Reads (spec.is_listed self.new.calls self.old.fails) (spec.bytes_at self.old.files path.now) result }
        ensures bytes { IfOk result (IsFile (spec.bytes_at self.old.files path.now)) }
        ensures refused { IsErrOf result ReadFault.Failed → spec.CanFail self.old.files self.old.fails path.now }
        ensures calls { self.new.calls ≡ spec.counted self.old.calls }
        ensures files { self.new.files ≡ self.old.files }
        ensures fails { self.new.fails ≡ self.old.fails }
        ensures cause { HasCauseOf self.old.faults self.new.faults result ReadFault.Failed }
        ensures counted { OnOk result (self.new.faults ≡ self.old.faults) }
    {
        self.calls = self.calls.saturating_add(1);
        if is_listed(self.calls, self.fails.as_slice()) {
            self.faults = self.faults.saturating_add(1);
            return Err(ReadFault::Failed);
        }
        match read_file(alloc, path, self.files.as_slice()) {
            Ok(bytes) => Ok(bytes),
            Err(ReadFault::NoMemory) => Err(ReadFault::NoMemory),
            Err(ReadFault::Failed) => {
                self.faults = self.faults.saturating_add(1);
                Err(ReadFault::Failed)
            }
        }
    }
}
