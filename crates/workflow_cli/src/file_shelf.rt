ghost use Rattle.std.specs.Prelude.{◌≡◌, None, ⊤};

use sqlite_items::Items;
use std::alloc::Global;
use std::fs::{File, Files};
use std::io::Read;
use wdl_port::{ReadFault, Shelf, read_limit};

/// The files of the system. It tells nothing of their content, may refuse each of them, and counts
/// each error other than want of memory. A file is read up to 1,048,577 bytes.
#[derive(Drop)]
pub struct FileShelf<R> {
    rt: R,
    /// How often it has failed.
    pub faults: u64,
}

impl<R> FileShelf<R> {
    /// A shelf without faults. It takes no memory.
    pub fn new(rt: R) -> FileShelf<R>
        ensures faults { result.faults ≡ 0 }
    {
        FileShelf { rt, faults: 0 }
    }
}

/// The first bytes of a file, up to the limit.
fn read_front<R: Files>(
    rt: &R,
    alloc: Global,
    path: &str,
    limit: usize,
) -> Result<Vec<u8>, ReadFault> {
    let mut bytes = Vec::new(alloc);
    let Ok(mut file) = File::open(rt, path) else {
        return Err(ReadFault::Failed);
    };
    let mut piece = [0u8; 4096];
    while bytes.len() < limit {
        let Ok(count) = file.read(&mut piece) else {
            return Err(ReadFault::Failed);
        };
        if count == 0 {
            return Ok(bytes);
        }
        bytes.extend_from_slice(&piece[..count])?;
    }
    bytes.truncate(limit);
    Ok(bytes)
}

impl<R: Files> Shelf for FileShelf<R> {
    ghost tells = { λ s p. None };

    ghost refuses = { λ s p. ⊤ };

    ghost faults = { λ s. s.faults };

    fn read(&mut self, alloc: Global, path: &str) -> Result<Items<u8>, ReadFault> {
        match read_front(&self.rt, alloc, path, read_limit()) {
            Ok(bytes) => Ok(Items::from_vec(bytes)),
            Err(ReadFault::NoMemory) => Err(ReadFault::NoMemory),
            Err(ReadFault::Failed) => {
                self.faults = self.faults.saturating_add(1);
                Err(ReadFault::Failed)
            }
        }
    }
}
