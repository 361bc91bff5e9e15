//! The outside of the program: the traits of a shelf of files, a sink of bytes, a launcher of
//! commands and a keeper of the journal, whose meanings are ghost members, and implementations in
//! memory.
#![tactic(auto)]

mod fault;
mod first;
mod keeper;
mod launcher;
mod listed;
mod map_keeper;
mod memory_shelf;
mod memory_sink;
mod no_keeper;
mod row;
mod shelf;
mod sink;
mod table_launcher;
mod table_row;

pub use fault::{KeepFault, LaunchFault, ReadFault, WriteFault};
pub use keeper::Keeper;
pub use launcher::Launcher;
pub use map_keeper::MapKeeper;
pub use memory_shelf::{MemoryShelf, PathFile, front, read_limit};
pub use memory_sink::MemorySink;
pub use no_keeper::NoKeeper;
pub use row::rises;
pub use shelf::Shelf;
pub use sink::Sink;
pub use table_launcher::TableLauncher;
pub use table_row::TableRow;
