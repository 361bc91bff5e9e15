//! A shelf that has one document alone.

ghost use Rattle.std.specs.Prelude.{◌≡◌, [], IfOk};
ghost use Rattle.workflow_stages.specs.Alone.{only_file};

use std::alloc::Global;
use wdl_port::{MemoryShelf, PathFile};
use wdl_value::{Items, NoMemory, Text};

/// A shelf that has this text at this path and nothing else, and of which no read fails.
pub fn shelf_of(alloc: Global, path: &Text, text: &Text) -> Result<MemoryShelf, NoMemory>
    ensures files { IfOk result (λ s. s.files ≡ only_file path.now text.now) }
    ensures fails { IfOk result (λ s. s.fails ≡ []) }
{
    let path = path.copy(alloc)?;
    let bytes = Items::from_slice(alloc, text.as_str().as_bytes())?;
    let mut files = Items::new(alloc);
    files.push(PathFile { path, bytes })?;
    Ok(MemoryShelf::new(files, Items::new(alloc)))
}
